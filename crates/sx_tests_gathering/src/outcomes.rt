//! Payloads of outcomes and of scripts, worked out by hand, and the first fault of each that is cut or changed.

ghost use Rattle.std.specs.Prelude.{◌≡◌, IfOk};

use std::alloc::Global;
use sx_bytes::{NoMemory, ReadError, Writer};
use sx_ledger::Static;
use sx_outcome::{
    Outcome, OutcomeLog, Outcomes, outcome_laws, outcome_list_laws, read_outcomes, read_script,
    script_laws, write_outcomes, write_packed, write_script,
};

// One outcome of each kind: the overdraft saw 40 and needed 60.
#[rattlefmt::skip]
fn outcomes_payload() -> [u8; 27] {
    [
        0, 0, 0, 6,
        0,
        1, 9,
        2,
        3,
        4,
        5, 0, 0, 0, 0, 0, 0, 0, 40, 0, 0, 0, 0, 0, 0, 0, 60,
    ]
}

// Whether this is the outcome at a place of the payload.
fn is_at(place: usize, outcome: Outcome) -> bool {
    match (place, outcome) {
        (0, Outcome::Accepted) => true,
        (1, Outcome::Static(why)) => why == Static::Dust,
        (2, Outcome::SeqTaken) => true,
        (3, Outcome::OfferTaken) => true,
        (4, Outcome::NameTaken) => true,
        (5, Outcome::Overdraft { seen, need }) => seen == 40 && need == 60,
        _ => false,
    }
}

fn are_the_six(outcomes: &[Outcome]) -> bool {
    for (place, outcome) in outcomes.iter().enumerate() {
        if !is_at(place, *outcome) {
            return false;
        }
    }
    outcomes.len() == 6
}

fn is_written(alloc: Global) -> Option<bool> {
    let outcomes = read_outcomes(alloc, outcomes_payload().as_slice()).ok()?;
    let mut to = Writer::new(alloc);
    write_outcomes(&mut to, &outcomes).ok()?;
    Some(to.bytes() == outcomes_payload().as_slice())
}

#[test]
fn each_outcome_has_its_encoding(rt: HostRuntime) {
    let alloc = rt.alloc();
    match read_outcomes(alloc, outcomes_payload().as_slice()) {
        Ok(outcomes) => {
            assert!(rt; are_the_six(outcomes.items()));
            assert!(rt; is_written(alloc) == Some(true));
        }
        Err(_) => assert!(rt; false),
    }
    outcome_laws();
    outcome_list_laws();
}

// A log of these outcomes.
fn log_of(alloc: Global, outcomes: &Outcomes) -> Result<OutcomeLog, NoMemory>
    ensures { IfOk result (λ log. log.outcomes ≡ outcomes.now) }
{
    let items = outcomes.items();
    let mut log = OutcomeLog::with_capacity(alloc, items.len())?;
    for outcome in items {
        log.push(*outcome);
    }
    Ok(log)
}

// Whether a log of the outcomes is written as they are, and has them.
fn is_logged(alloc: Global) -> Option<bool> {
    let outcomes = read_outcomes(alloc, outcomes_payload().as_slice()).ok()?;
    let packed = log_of(alloc, &outcomes).ok()?.into_packed();
    let mut to = Writer::new(alloc);
    write_packed(&mut to, &packed).ok()?;
    let list = packed.to_list(alloc).ok()?;
    Some(to.bytes() == outcomes_payload().as_slice() && are_the_six(list.items()))
}

#[test]
fn logged_outcomes_have_the_same_encoding(rt: HostRuntime) {
    assert!(rt; is_logged(rt.alloc()) == Some(true));
}

// Where a fault is, and the number of it.
fn fault_of(refused: Option<ReadError>) -> Option<(u64, u8)> {
    match refused? {
        ReadError::Form(refused) => Some((refused.at, refused.fault.number())),
        ReadError::NoMemory => None,
    }
}

// The fault of the first bytes of the payload of outcomes, once one of them is changed.
fn fault_with(alloc: Global, place: usize, byte: u8, len: usize) -> Option<(u64, u8)> {
    let mut bytes = outcomes_payload();
    *bytes.get_mut(place)? = byte;
    fault_of(read_outcomes(alloc, bytes.get(..len)?).err())
}

// The place of the first byte whose change is refused otherwise.
fn first_wrong(alloc: Global) -> Option<usize> {
    // the place, the byte and the length; where the fault is, and its number
    for (place, byte, len, at, number) in [
        // 2^24 of them, more than there may be
        (0, 1, 27, 0, 9),
        (4, 6, 27, 4, 2),
        (6, 0, 27, 6, 2),
        (6, 11, 27, 6, 2),
        // 2^62 + 40, above every amount
        (11, 64, 27, 11, 3),
        // as much as was seen
        (26, 40, 27, 19, 3),
        (19, 64, 27, 19, 3),
        // without the last byte, and with one outcome fewer in the count
        (0, 0, 26, 26, 1),
        (3, 5, 27, 10, 10),
    ] {
        if fault_with(alloc, place, byte, len) != Some((at, number)) {
            return Some(place);
        }
    }
    None
}

#[test]
fn outcomes_have_a_first_fault(rt: HostRuntime) {
    assert_eq!(rt; first_wrong(rt.alloc()), None);
}

// Two actors, who take turns six times.
fn script_payload() -> [u8; 11] {
    [2, 0, 0, 0, 6, 0, 1, 0, 1, 0, 1]
}

// Whether the script is read and written.
fn is_script(alloc: Global) -> Option<bool> {
    let payload = script_payload();
    let script = read_script(alloc, payload.as_slice()).ok()?;
    let mut to = Writer::new(alloc);
    write_script(&mut to, &script).ok()?;
    let turns = script.turns.items() == [0, 1, 0, 1, 0, 1].as_slice();
    Some(script.actors == 2 && turns && to.bytes() == payload.as_slice())
}

#[test]
fn a_script_has_its_encoding(rt: HostRuntime) {
    assert!(rt; is_script(rt.alloc()) == Some(true));
    script_laws();
}

// The fault of the first bytes of the payload of a script, once one of them is changed.
fn script_fault_with(alloc: Global, place: usize, byte: u8, len: usize) -> Option<(u64, u8)> {
    let mut bytes = script_payload();
    *bytes.get_mut(place)? = byte;
    fault_of(read_script(alloc, bytes.get(..len)?).err())
}

// The place of the first byte whose change is refused otherwise.
fn first_wrong_in_script(alloc: Global) -> Option<usize> {
    // the place, the byte and the length; where the fault is, and its number
    for (place, byte, len, at, number) in [
        (0, 0, 11, 0, 21),
        (0, 9, 11, 0, 21),
        // 2^24 turns, more than there may be
        (1, 1, 11, 1, 9),
        (6, 2, 11, 6, 21),
        // the turn comes before the end
        (6, 2, 8, 6, 21),
        (0, 2, 8, 8, 1),
        (4, 4, 11, 9, 10),
    ] {
        if script_fault_with(alloc, place, byte, len) != Some((at, number)) {
            return Some(place);
        }
    }
    None
}

#[test]
fn a_script_has_a_first_fault(rt: HostRuntime) {
    assert_eq!(rt; first_wrong_in_script(rt.alloc()), None);
}
