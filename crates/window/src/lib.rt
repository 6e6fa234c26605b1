// The depth window: how many bytes a decoder has to hold. Document 01, "Depth window (001)", numbers 1, 12 and 13.
//
// Five accumulators sum the bytes of every unit that has arrived and has not been played out: substream 0, the 6-, 8- and 16-channel
// decoders, and the whole stream. A unit's bytes stay until the playhead is strictly above its removal time. A window goes in by value
// and comes back; a call that refuses hands it back as it was.
//
// The rules are in `window_rules`, with the types; what is asked of a window needs its levels alone (crate `levels`). The loop that drains
// changes the levels alone, so no ring is copied in it.
#![tactic(auto)]

mod single; // one accumulator, one substream
mod every; // all of them, and what one slot does to the levels
mod slots; // the rings and the drain

ghost use Rattle.std.specs.Prelude.{◌≡◌, true};
ghost use Rattle.levels.specs.Numbers.{fits_of, room_of};
ghost use Rattle.window_rules.specs.Window.{fresh_of, answer_of, stepped_of, pushed_of, restarted_of};

use every::{add_slot, fresh_levels, restart_levels, totals};
use kinds::SampleTime;
use levels::numbers::{fits, room, small};
use levels::{Contribution, Refusal};
use slots::{Slot, drain, fresh_rings, write_slot};
use window_rules::{Pushed, Report, Restarted, Window};

// Numbers 1, 12 and 13, in this order.
#[tactic(auto, unfolding(window_rules::specs::Window::answer_of))]
fn check(window: &Window, contribution: Contribution) -> Result<(), Refusal>
    ensures { result ≡ answer_of window.now contribution }
{
    if !fits(window.levels) {
        return Err(Refusal::RecordDoesNotFit);
    }
    if !small(contribution) {
        return Err(Refusal::ContributionTooLarge);
    }
    if !room(window.levels, contribution) {
        return Err(Refusal::DepthTooLarge);
    }
    Ok(())
}

// A step that is accepted: write the slot, drain, add.
fn step(
    window: Window,
    playhead: SampleTime,
    removal: SampleTime,
    contribution: Contribution,
) -> Pushed
    requires { (fits_of window.levels ≡ true) × (room_of window.levels contribution ≡ true) }
    ensures { result ≡ stepped_of window playhead removal contribution }
{
    let slot = Slot {
        number: window.levels.write,
    };
    let rings = write_slot(window.rings, slot, removal, contribution);
    let drained = drain(&rings, window.levels, playhead);
    let levels = add_slot(drained.levels, contribution);
    Pushed {
        window: Window { rings, levels },
        answer: Ok(Report {
            depths: totals(levels.depth),
            underrun: drained.underrun,
        }),
    }
}

// A window that never held a unit.
#[tactic(auto, unfolding(window_rules::specs::Window::fresh_of))]
pub fn fresh() -> Window
    ensures { result ≡ fresh_of }
{
    Window {
        rings: fresh_rings(),
        levels: fresh_levels(),
    }
}

// Admits a unit and drains every slot that playback has strictly passed. Numbers 1, 12 and 13, in this order, hand the window back
// as it was.
pub fn push(
    window: Window,
    playhead: SampleTime,
    removal: SampleTime,
    contribution: Contribution,
) -> Pushed
    ensures { result ≡ pushed_of window playhead removal contribution }
{
    match check(&window, contribution) {
        Ok(()) => step(window, playhead, removal, contribution),
        Err(refusal) => Pushed {
            window,
            answer: Err(refusal),
        },
    }
}

// Drops every unit in flight and starts the window again, keeping the peaks.
#[tactic(auto, unfolding(window_rules::specs::Window::restarted_of))]
pub fn restart(window: Window) -> Restarted
    ensures { result ≡ restarted_of window }
{
    if !fits(window.levels) {
        return Restarted {
            window,
            answer: Err(Refusal::RecordDoesNotFit),
        };
    }
    Restarted {
        window: Window {
            rings: fresh_rings(),
            levels: restart_levels(window.levels),
        },
        answer: Ok(()),
    }
}
