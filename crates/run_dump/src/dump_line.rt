//! What a dump says of a datagram.
ghost use Rattle.std.specs.Prelude.{◌≡◌, ◌++◌, IfOk, OnOk, string_bytes};
ghost use Rattle.watch_list.specs.EventLines.{truth};
ghost use Rattle.run_dump.specs.Dump.{hexadecimal, place_text, information_text, close_text, data_text};
ghost use Rattle.run_dump.specs.Dump.{symbol_text, control_text, refusal_text, reply_text, dump_line};
ghost use Rattle.alc_packet.specs.Reply.{reply};

use alc_packet::{Datagram, Packet, Refusal};
use oti_blocks::Oti;
use run_base::push_labelled;
use std::alloc::{AllocError, Global};

/// How many bytes a line shows.
const SHOWN: usize = 16;

/// The line of a datagram, of which `place` stand in front.
pub fn dump_line(alloc: Global, place: u64, datagram: &[u8]) -> Result<String, AllocError>
    ensures { IfOk result (λ text. string_bytes text ≡ dump_line place datagram.now) }
{
    let mut text = String::new(alloc);
    push_labelled(alloc, &mut text, "", u128::from(place))?;
    text.push_str(" ")?;
    push_reply(alloc, &mut text, datagram)?;
    text.push_str("\n")?;
    Ok(text)
}

fn push_reply(alloc: Global, text: &mut String, datagram: &[u8]) -> Result<(), AllocError>
    ensures { OnOk result (string_bytes text.new ≡ string_bytes text.old ++ reply_text (reply datagram.now) datagram.now) }
{
    match alc_packet::read(datagram) {
        Ok(Datagram::Symbol(packet)) => push_symbol(alloc, text, &packet),
        Ok(Datagram::Control { tsi, close }) => push_control(alloc, text, tsi, close),
        Err(refusal) => push_refusal(alloc, text, &refusal, datagram),
    }
}

fn push_symbol(alloc: Global, text: &mut String, packet: &Packet<'_>) -> Result<(), AllocError>
    ensures { OnOk result (string_bytes text.new ≡ string_bytes text.old ++ symbol_text packet.now) }
{
    push_place(alloc, text, packet)?;
    push_information(alloc, text, &packet.oti)?;
    push_labelled(alloc, text, " bytes ", packet.symbol.len() as u128)?;
    push_close(alloc, text, packet.close)?;
    push_data(alloc, text, packet.symbol)
}

#[tactic(auto, unfolding(crate::specs::Dump::place_text))]
fn push_place(alloc: Global, text: &mut String, packet: &Packet<'_>) -> Result<(), AllocError>
    ensures { OnOk result (string_bytes text.new ≡ string_bytes text.old ++ place_text packet.now) }
{
    push_labelled(alloc, text, "symbol tsi ", u128::from(packet.tsi))?;
    push_labelled(alloc, text, " toi ", packet.toi)?;
    push_labelled(alloc, text, " sbn ", u128::from(packet.sbn))?;
    push_labelled(alloc, text, " esi ", u128::from(packet.esi))
}

#[tactic(auto, unfolding(crate::specs::Dump::information_text))]
fn push_information(alloc: Global, text: &mut String, oti: &Oti) -> Result<(), AllocError>
    ensures { OnOk result (string_bytes text.new ≡ string_bytes text.old ++ information_text oti.now) }
{
    push_labelled(alloc, text, " length ", u128::from(oti.length()))?;
    push_labelled(alloc, text, " size ", u128::from(oti.symbol()))?;
    push_labelled(alloc, text, " block ", u128::from(oti.max_block()))?;
    push_labelled(alloc, text, " maxn ", u128::from(oti.max_n()))
}

fn push_control(alloc: Global, text: &mut String, tsi: u64, close: bool) -> Result<(), AllocError>
    ensures { OnOk result (string_bytes text.new ≡ string_bytes text.old ++ control_text tsi close) }
{
    text.push_str("control")?;
    push_labelled(alloc, text, " tsi ", u128::from(tsi))?;
    push_close(alloc, text, close)
}

fn push_refusal(
    alloc: Global,
    text: &mut String,
    refusal: &Refusal,
    datagram: &[u8],
) -> Result<(), AllocError>
    ensures { OnOk result (string_bytes text.new ≡ string_bytes text.old ++ refusal_text refusal.now datagram.now) }
{
    push_labelled(alloc, text, "refused ", u128::from(refusal.code()))?;
    push_labelled(alloc, text, " ", u128::from(refusal.detail()))?;
    push_data(alloc, text, datagram)
}

#[tactic(auto, unfolding(crate::specs::Dump::close_text))]
fn push_close(alloc: Global, text: &mut String, close: bool) -> Result<(), AllocError>
    ensures { OnOk result (string_bytes text.new ≡ string_bytes text.old ++ close_text close) }
{
    push_labelled(alloc, text, " close ", u128::from(truth(close)))
}

fn truth(is: bool) -> u8
    ensures { result ≡ truth is }
{
    if is { 1 } else { 0 }
}

#[tactic(auto, unfolding(crate::specs::Dump::data_text))]
fn push_data(alloc: Global, text: &mut String, bytes: &[u8]) -> Result<(), AllocError>
    ensures { OnOk result (string_bytes text.new ≡ string_bytes text.old ++ data_text bytes.now) }
{
    text.push_str(" data ")?;
    let data = hexadecimal(alloc, bytes)?;
    text.push_str(data.as_str())
}

/// The first bytes in hexadecimal.
fn hexadecimal(alloc: Global, bytes: &[u8]) -> Result<String, AllocError>
    ensures { IfOk result (λ text. string_bytes text ≡ hexadecimal bytes.now) }
{
    match bytes {
        [] => String::from_str(alloc, "-"),
        _ => hex::encode(alloc, &bytes[..bytes.len().min(SHOWN)]),
    }
}
