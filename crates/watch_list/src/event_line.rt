//! The line of an event.

ghost use Rattle.std.specs.Prelude.{◌≡◌, ◌+◌, ◌≤◌, ◌++◌, [], length};
ghost use Rattle.watch_list.specs.EventLines.{labelled, spaced, truth, place_text, event_text, event_line};

use crate::Event;
use arrayvec::ArrayString;
use itoa::Buffer;

/// The bytes that a line has room for: a label of at most 15, five numbers of at most 39 digits, the
/// four blanks between them, and the line feed have 215.
const ROOM: usize = 256;

/// The line of an event, with its line feed. It lies in the value itself.
pub(crate) fn event_line(event: &Event) -> ArrayString<ROOM>
    ensures { result.bytes ≡ event_line event.now }
{
    let mut line = ArrayString::new();
    push_event(&mut line, event);
    line.push('\n');
    line
}

fn push_event(line: &mut ArrayString<ROOM>, event: &Event)
    requires { line.old.bytes ≡ [] }
    ensures text { line.new.bytes ≡ event_text event.now }
    ensures short { length line.new.bytes ≤ 214 }
{
    match *event {
        Event::Refused { code, detail } => {
            push_labelled(line, "refused ", u128::from(code));
            push_spaced(line, u128::from(detail));
        }
        Event::Elsewhere { tsi } => push_labelled(line, "elsewhere ", u128::from(tsi)),
        Event::Control { close } => push_labelled(line, "control ", truth(close)),
        Event::New {
            toi,
            sbn,
            esi,
            block_done,
            object_done,
        } => {
            push_place(line, "new ", toi, sbn, esi);
            push_spaced(line, truth(block_done));
            push_spaced(line, truth(object_done));
        }
        Event::Repeat { toi, sbn, esi } => push_place(line, "repeat ", toi, sbn, esi),
        Event::Spare { toi, sbn, esi } => push_place(line, "spare ", toi, sbn, esi),
        Event::OtiDiffers { toi } => push_labelled(line, "oti differs ", toi),
        Event::SymbolDiffers { toi, sbn, esi, at } => {
            push_place(line, "symbol differs ", toi, sbn, esi);
            push_spaced(line, u128::from(at));
        }
        Event::OverBudget {
            toi,
            sbn,
            esi,
            count,
            charge,
        } => {
            push_place(line, "over budget ", toi, sbn, esi);
            push_spaced(line, u128::from(count));
            push_spaced(line, u128::from(charge));
        }
        Event::Installed { number } => push_labelled(line, "installed ", u128::from(number)),
    }
}

/// Adds a label and the place of a symbol.
#[tactic(auto, unfolding(crate::specs::EventLines::place_text))]
fn push_place(line: &mut ArrayString<ROOM>, label: &str, toi: u128, sbn: u32, esi: u8)
    requires room { line.old.bytes ≡ [] }
    requires label { length label.now ≤ 15 }
    ensures text { line.new.bytes ≡ place_text label.now toi sbn esi }
    ensures short { length line.new.bytes ≤ 134 }
{
    push_labelled(line, label, toi);
    push_spaced(line, u128::from(sbn));
    push_spaced(line, u128::from(esi));
}

/// Adds a blank and a number.
fn push_spaced(line: &mut ArrayString<ROOM>, number: u128)
    requires { length line.old.bytes ≤ 200 }
    ensures text { line.new.bytes ≡ line.old.bytes ++ spaced number }
    ensures short { length line.new.bytes ≤ length line.old.bytes + 40 }
{
    push_labelled(line, " ", number);
}

/// Adds a label and a number.
#[tactic(auto, unfolding(crate::specs::EventLines::labelled))]
fn push_labelled(line: &mut ArrayString<ROOM>, label: &str, number: u128)
    requires room { length line.old.bytes ≤ 200 }
    requires label { length label.now ≤ 15 }
    ensures text { line.new.bytes ≡ line.old.bytes ++ labelled label.now number }
    ensures short { length line.new.bytes ≤ length line.old.bytes + length label.now + 39 }
{
    let mut digits = Buffer::new();
    line.push_str(label);
    line.push_str(digits.format(number));
}

fn truth(is: bool) -> u128
    ensures { result ≡ truth is }
{
    if is { 1 } else { 0 }
}
