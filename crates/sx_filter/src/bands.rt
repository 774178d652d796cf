//! Bands of accounts: a range is cut into so many of them that the cache of a processor holds the candidates of one.

ghost use Rattle.std.specs.Prelude.{◌≡◌, ◌<◌};
ghost use Rattle.sx_filter.specs.Bands.{AreBands, band_among};

use sx_ledger::Ledger;

// The most bands of a range.
const MOST_BANDS: usize = 512;

// How many candidates are worth a band of their own. Their memory is 20 KB.
const WORTH_A_BAND: usize = 512;

// Bands of 2^shift ids each, from the id `low` on. The first has all ids below it too, and the last all ids above.
#[derive(Clone, Copy, Debug)]
pub(crate) struct Bands {
    pub(crate) low: u64,
    pub(crate) shift: u32,
    pub(crate) count: usize,
}

impl Bands {
    // In which band an account lies.
    pub(crate) fn band_of(&self, account: u64) -> usize
        requires { AreBands self.now }
        ensures within { result < self.now.count }
        ensures is { result ≡ band_among self.now account }
    {
        let far = account.saturating_sub(self.low) >> self.shift;
        (far as usize).min(self.count - 1)
    }
}

// The bands of ids from a lowest one to a highest one that so many candidates are worth.
fn bands_between(low: u64, high: u64, candidates: usize) -> Bands
    ensures { AreBands result }
{
    let wanted = (candidates / WORTH_A_BAND).clamp(1, MOST_BANDS) as u64;
    let length = high.saturating_sub(low);
    // So many bits less of the length are as many as those of the number but one.
    let shift = wanted
        .leading_zeros()
        .saturating_sub(length.leading_zeros())
        .saturating_add(1)
        .min(u64::BITS - 1);
    let last = ((length >> shift) as usize).min(MOST_BANDS - 1);
    Bands {
        low,
        shift,
        count: last + 1,
    }
}

fn cut_or(cuts: &[u64], place: usize, otherwise: u64) -> u64 {
    match cuts.get(place) {
        Some(cut) => *cut,
        None => otherwise,
    }
}

// The bands of a range that so many candidates are worth. Only time rests on how it is cut.
pub(crate) fn bands_of(ledger: &Ledger, cuts: &[u64], range: usize, candidates: usize) -> Bands
    ensures { AreBands result }
{
    let accounts = ledger.parts().accounts.items();
    let (Some(first), Some(last)) = (accounts.first(), accounts.last()) else {
        return bands_between(0, 0, candidates);
    };
    let low = match range {
        0 => first.id.0,
        _ => cut_or(cuts, range - 1, first.id.0),
    };
    bands_between(low, cut_or(cuts, range, last.id.0), candidates)
}
