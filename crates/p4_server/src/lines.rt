//! The lines that tell the order and the ends.

ghost use Rattle.std.specs.Prelude.{◌≡◌, ◌++◌, OnOk, IfOk, decimal};
ghost use Rattle.p4_server.specs.Lines.{faulted_line, placed_line, place_line, place_lines, end_line, end_lines, fault_code, fault_line, run_lines};

use crate::ended::{PartyCause, PartyEnd};
use depot_rows::model::Place;
use depot_rows::paths::Text;
use end_lines::Cause;
use itoa::Buffer;
use std::alloc::{AllocError, Global};
use wire_text::ScriptFaultKind;

fn put_number(out: &mut Text, number: u64) -> Result<(), AllocError>
    ensures { OnOk result (out.new ≡ out.old ++ decimal number) }
{
    out.append(Buffer::new().format(number).as_bytes())
}

fn put_faulted(out: &mut Text, place: &Place) -> Result<(), AllocError>
    ensures { OnOk result (out.new ≡ out.old ++ faulted_line place.now) }
{
    out.append(b"fault ")?;
    put_number(out, u64::from(place.party))?;
    out.append(b" ")?;
    put_number(out, u64::from(place.number))?;
    out.append(b"\n")
}

fn put_placed(out: &mut Text, place: &Place) -> Result<(), AllocError>
    ensures { OnOk result (out.new ≡ out.old ++ placed_line place.now) }
{
    out.append(b"place ")?;
    put_number(out, u64::from(place.party))?;
    out.append(b" ")?;
    put_number(out, u64::from(place.number))?;
    out.append(b" ")?;
    put_number(out, place.moment)?;
    out.append(b"\n")
}

fn put_place(out: &mut Text, place: &Place) -> Result<(), AllocError>
    ensures { OnOk result (out.new ≡ out.old ++ place_line place.now) }
{
    if place.fault {
        put_faulted(out, place)
    } else {
        put_placed(out, place)
    }
}

fn put_places(out: &mut Text, order: &[Place]) -> Result<(), AllocError>
    ensures { OnOk result (out.new ≡ out.old ++ place_lines order.now) }
{
    for place in order {
        put_place(out, place)?;
    }
    Ok(())
}

/// The number by which a line names a script's fault.
fn code_of(what: ScriptFaultKind) -> u64
    ensures { result ≡ fault_code what }
{
    match what {
        ScriptFaultKind::BadHead => 1,
        ScriptFaultKind::LongLine => 2,
        ScriptFaultKind::BadData => 3,
        ScriptFaultKind::Cut => 4,
        ScriptFaultKind::LongData => 5,
    }
}

fn put_end(out: &mut Text, party: u32, end: PartyCause) -> Result<(), AllocError>
    ensures { OnOk result (out.new ≡ out.old ++ end_line party end) }
{
    match end {
        PartyCause::Script(fault) => {
            out.append(b"script ")?;
            put_number(out, u64::from(party))?;
            out.append(b" ")?;
            put_number(out, code_of(fault.what))?;
            out.append(b" ")?;
            put_number(out, fault.place)?;
            out.append(b"\n")
        }
        PartyCause::Whole | PartyCause::ReadFault | PartyCause::WriteFault => Ok(()),
    }
}

fn put_ends<K>(out: &mut Text, parties: &[PartyEnd<K>]) -> Result<(), AllocError>
    ensures { OnOk result (out.new ≡ out.old ++ end_lines parties.now) }
{
    for party in parties {
        put_end(out, party.party, party.end)?;
    }
    Ok(())
}

fn put_cause(out: &mut Text, cause: Cause) -> Result<(), AllocError>
    ensures { OnOk result (out.new ≡ out.old ++ fault_line cause) }
{
    match cause {
        Cause::Fault => out.append(b"fault\n"),
        _ => Ok(()),
    }
}

/// The lines of a run: a line for each place, one for each party whose script has a fault, and one
/// where the outside has failed.
pub fn lines<K>(
    alloc: Global,
    order: &[Place],
    parties: &[PartyEnd<K>],
    cause: Cause,
) -> Result<Text, AllocError>
    ensures { IfOk result (λ text. text ≡ run_lines order.now parties.now cause) }
{
    let mut out = Text::new(alloc);
    put_places(&mut out, order)?;
    put_ends(&mut out, parties)?;
    put_cause(&mut out, cause)?;
    Ok(out)
}
