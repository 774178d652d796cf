use std::alloc::Global;
use std::test::Fail;
use sx_base::{AccountId, Amount, AssetId, Seq};
use sx_bytes::{Form, FormFault, ReadError, Reader, Writer};
use sx_price::Limit;
use sx_tx::*;

fn tx(account: u64, seq: u64, kind: Kind) -> Result<Tx, Fail> {
    Ok(Tx {
        account: AccountId(account),
        seq: Seq::new(seq)?,
        kind,
    })
}

// Payment 1 of account 1: 30 units of asset 0 to account 2.
fn pay() -> Result<Tx, Fail> {
    let to = AccountId(2);
    let asset = AssetId::new(0)?;
    let amount = Amount::new(30)?;
    tx(1, 1, Kind::Pay { to, asset, amount })
}

#[rattlefmt::skip]
fn pay_bytes() -> [u8; 34] {
    [
        0, 0, 0, 0, 0, 0, 0, 1,
        0, 0, 0, 0, 0, 0, 0, 1,
        1,
        0, 0, 0, 0, 0, 0, 0, 2,
        0,
        0, 0, 0, 0, 0, 0, 0, 30,
    ]
}

// Transaction 7 of account 2^63: the account 9.
fn create() -> Result<Tx, Fail> {
    tx(1 << 63, 7, Kind::Create { id: AccountId(9) })
}

#[rattlefmt::skip]
fn create_bytes() -> [u8; 25] {
    [
        128, 0, 0, 0, 0, 0, 0, 0,
        0, 0, 0, 0, 0, 0, 0, 7,
        2,
        0, 0, 0, 0, 0, 0, 0, 9,
    ]
}

// Transaction 258 of account 1: 2^62 units of asset 31 for asset 1, at the limit 1.
fn offer() -> Result<Tx, Fail> {
    let sell = AssetId::new(31)?;
    let buy = AssetId::new(1)?;
    let limit = Limit::new(1 << 24)?;
    let amount = Amount::new(1 << 62)?;
    tx(
        1,
        258,
        Kind::Offer {
            sell,
            buy,
            limit,
            amount,
        },
    )
}

#[rattlefmt::skip]
fn offer_bytes() -> [u8; 35] {
    [
        0, 0, 0, 0, 0, 0, 0, 1,
        0, 0, 0, 0, 0, 0, 1, 2,
        3,
        31, 1,
        0, 0, 0, 0, 1, 0, 0, 0,
        64, 0, 0, 0, 0, 0, 0, 0,
    ]
}

// Transaction 2^63 - 1 of account 1: it ends offer 258.
fn cancel() -> Result<Tx, Fail> {
    let sell = AssetId::new(31)?;
    let buy = AssetId::new(1)?;
    let limit = Limit::new(1 << 24)?;
    let seq = Seq::new(258)?;
    tx(
        1,
        (1 << 63) - 1,
        Kind::Cancel {
            sell,
            buy,
            limit,
            seq,
        },
    )
}

#[rattlefmt::skip]
fn cancel_bytes() -> [u8; 35] {
    [
        0, 0, 0, 0, 0, 0, 0, 1,
        127, 255, 255, 255, 255, 255, 255, 255,
        4,
        31, 1,
        0, 0, 0, 0, 1, 0, 0, 0,
        0, 0, 0, 0, 0, 0, 1, 2,
    ]
}

fn decoded(bytes: &[u8]) -> Result<Tx, FormFault> {
    let mut from = Reader::new(bytes);
    read_tx(&mut from)
}

fn is_encoded_to(alloc: Global, tx: &Tx, bytes: &[u8]) -> Option<bool> {
    let mut to = Writer::new(alloc);
    write_tx(&mut to, tx).ok()?;
    Some(to.bytes() == bytes)
}

#[test]
fn each_kind_has_its_encoding(rt: HostRuntime) -> Result<(), Fail> {
    tx_laws();
    for (tx, bytes) in [
        (pay()?, &pay_bytes()[..]),
        (create()?, &create_bytes()),
        (offer()?, &offer_bytes()),
        (cancel()?, &cancel_bytes()),
    ] {
        assert_eq!(rt; decoded(bytes), Ok(tx));
        assert_eq!(rt; is_encoded_to(rt.alloc(), &tx, bytes), Some(true));
    }
    Ok(())
}

// What the offer's bytes are decoded to once one byte is changed.
fn decoded_with(place: usize, byte: u8) -> Result<Tx, FormFault> {
    let mut bytes = offer_bytes();
    if place < 35 {
        bytes[place] = byte;
    }
    decoded(&bytes)
}

#[test]
fn a_field_out_of_range_is_the_fault(rt: HostRuntime) {
    for (place, byte, at, fault) in [
        (8, 128, 8, Form::SeqRange),
        (16, 5, 16, Form::Tag),
        (18, 32, 18, Form::AssetRange),
        (19, 1, 19, Form::LimitRange),
        (34, 1, 27, Form::AmountRange),
    ] {
        assert_eq!(rt; decoded_with(place, byte), Err(FormFault { at, fault }));
    }
}

// The payload of two payments that are the same, and one more byte.
fn two() -> [u8; 73] {
    let mut bytes = [0; 73];
    bytes[3] = 2;
    bytes[4..38].copy_from_slice(&pay_bytes());
    bytes[38..72].copy_from_slice(&pay_bytes());
    bytes
}

// How many candidates there are, if they are encoded to the same bytes.
fn candidates_in(alloc: Global, bytes: &[u8]) -> Option<usize> {
    let txs = read_candidates(alloc, bytes).ok()?;
    let mut to = Writer::new(alloc);
    write_candidates(&mut to, txs.items()).ok()?;
    (to.bytes() == bytes).then_some(txs.items().len())
}

#[test]
fn candidates_are_a_whole_payload(rt: HostRuntime) {
    list_laws();
    let alloc = rt.alloc();
    let bytes = two();
    assert_eq!(rt; candidates_in(alloc, &bytes[..72]), Some(2));
    for (bytes, at, fault) in [
        (&bytes[..], 72, Form::Rest),
        (&bytes[..71], 71, Form::Short),
        // 1,000,001 and 1,000,000 of them
        (&[0, 15, 66, 65], 0, Form::TooMany),
        (&[0, 15, 66, 64], 4, Form::Short),
    ] {
        let refused = read_candidates(alloc, bytes).err();
        assert_eq!(rt; refused, Some(ReadError::Form(FormFault { at, fault })));
    }
}

// The place of a sequence number after 7, or the number of the fault.
fn place_of(seq: u64) -> Option<Result<u32, u8>> {
    let window = Window { last: 7, used: 0 };
    let place = window.place(Seq::new(seq).ok()?);
    Some(place.map_err(|fault| fault.number()))
}

#[test]
fn a_window_is_64_sequence_numbers(rt: HostRuntime) {
    window_laws();
    for (seq, place) in [(7, Err(1)), (8, Ok(0)), (71, Ok(63)), (72, Err(2))] {
        assert_eq!(rt; place_of(seq), Some(place));
    }
    let window = Window { last: 7, used: 0 };
    for (map, last) in [(0, 7), (1, 8), (0b10110, 12), (1 << 63, 71)] {
        assert_eq!(rt; window.next(1, map), Window { last, used: 0 });
    }
}
