//! The candidates of the demonstration.

ghost use Rattle.std.specs.Prelude.{◌≡◌, ◌<◌, ◌≤◌, ◌++◌, IfOk};
ghost use Rattle.sx_gen.specs.Candidates.{demo_txs, limit_of, offer_by, offers_from, payment_by, payments_from};
ghost use Rattle.sx_gen.specs.Drawing.{state_after, word_after};
ghost use Rattle.sx_tx.specs.Transactions.{IsTxList};

use crate::drawing::draw;
use crate::state::{ACCOUNTS, ASSETS, PRICE};
use rand_core::SeedableRng;
use rand_xoshiro::Xoshiro256PlusPlus;
use std::alloc::Global;
use sx_base::{AccountId, Amount, AssetId, Seq};
use sx_bytes::NoMemory;
use sx_price::Limit;
use sx_tx::{Kind, Tx, TxList};

const OFFERS: u64 = 4_000;

// Each account makes four offers, and its payment is the next transaction.
const PAYMENT_SEQ: u64 = 5;

// The least amount of an offer, and how many amounts there are.
const LEAST_AMOUNT: u64 = 100;

const AMOUNTS: u64 = 9_901;

// A limit is the rate of two prices that hang on the assets, times so many thousandths.
const LEAST_THOUSANDTHS: u64 = 900;

const THOUSANDTHS: u64 = 201;

const MOST_PAID: u64 = 100;

fn asset(number: u64) -> AssetId
    requires { number < 8 }
    ensures { result ≡ number }
{
    AssetId::new(number as u8).unwrap()
}

// The limit of an offer. The least one is 8,053,063, of asset 0 for asset 7 at 900 thousandths.
fn limit(sell: u64, buy: u64, thousandths: u64) -> Limit
    requires sell { sell < 8 }
    requires buy { buy < 8 }
    requires some { 900 ≤ thousandths }
    requires few { thousandths ≤ 1100 }
    ensures { result ≡ limit_of sell buy thousandths }
{
    let raw = (ASSETS + sell) * PRICE * thousandths / ((ASSETS + buy) * 1_000);
    Limit::new(raw).unwrap()
}

// An offer, by the next four words.
fn offer(generator: &mut Xoshiro256PlusPlus) -> Kind
    ensures kind { result ≡ offer_by (word_after generator.old) }
    ensures after { generator.new ≡ state_after 4 generator.old }
{
    let sell = draw(generator, ASSETS);
    let buy = (sell + 1 + draw(generator, ASSETS - 1)) % ASSETS;
    let amount = LEAST_AMOUNT + draw(generator, AMOUNTS);
    let thousandths = LEAST_THOUSANDTHS + draw(generator, THOUSANDTHS);
    Kind::Offer {
        sell: asset(sell),
        buy: asset(buy),
        limit: limit(sell, buy, thousandths),
        amount: Amount::new(amount).unwrap(),
    }
}

// A payment, by the next three words.
fn payment(generator: &mut Xoshiro256PlusPlus) -> Kind
    ensures kind { result ≡ payment_by (word_after generator.old) }
    ensures after { generator.new ≡ state_after 3 generator.old }
{
    let to = AccountId(1 + draw(generator, ACCOUNTS));
    let asset = asset(draw(generator, ASSETS));
    let amount = Amount::new(1 + draw(generator, MOST_PAID)).unwrap();
    Kind::Pay { to, asset, amount }
}

// A list, and the offers after it.
fn with_offers(mut txs: Vec<Tx>, generator: &mut Xoshiro256PlusPlus) -> Result<Vec<Tx>, NoMemory>
    ensures txs { IfOk result (λ longer. longer.items ≡ txs.items ++ offers_from generator.old 4000) }
    ensures after { IfOk result (λ _. generator.new ≡ state_after 16000 generator.old) }
{
    for i in 0..OFFERS {
        txs.push(Tx {
            account: AccountId(1 + i % ACCOUNTS),
            seq: Seq::new(1 + i / ACCOUNTS).unwrap(),
            kind: offer(generator),
        })?;
    }
    Ok(txs)
}

// A list, and the payments after it.
fn with_payments(mut txs: Vec<Tx>, generator: &mut Xoshiro256PlusPlus) -> Result<Vec<Tx>, NoMemory>
    ensures { IfOk result (λ longer. longer.items ≡ txs.items ++ payments_from generator.old 1000) }
{
    for i in 0..ACCOUNTS {
        txs.push(Tx {
            account: AccountId(1 + i),
            seq: Seq::new(PAYMENT_SEQ).unwrap(),
            kind: payment(generator),
        })?;
    }
    Ok(txs)
}

/// The candidates of the demonstration of a number: 4,000 offers, four of each account, and then a
/// payment of each account. It takes memory for the list alone.
pub fn demo_candidates(alloc: Global, number: u64) -> Result<TxList, NoMemory>
    ensures txs { IfOk result (λ txs. txs ≡ demo_txs number) }
    ensures each { IfOk result IsTxList }
{
    let mut generator = Xoshiro256PlusPlus::seed_from_u64(number);
    let txs = Vec::with_capacity(alloc, (OFFERS + ACCOUNTS) as usize)?;
    let txs = with_offers(txs, &mut generator)?;
    let txs = with_payments(txs, &mut generator)?;
    Ok(TxList::of(txs))
}
