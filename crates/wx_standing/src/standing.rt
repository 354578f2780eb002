//! What the value behind the lock keeps of each endpoint and of each host.
ghost use Rattle.std.specs.Prelude.{◌≡◌, ◌+◌, ◌<◌, ◌==◌, false, vec_len, OnOk};
ghost use Rattle.wx_standing.specs.Standings.{AreAlike, HasCounted, is_out, standing_at};

use wx_id::NoMemory;

/// The most entries that an endpoint or a host makes, unless a host ends behind them.
pub const ENTRY_LIMIT: u64 = 65_536;

/// How one stands that has made no entry.
const FRESH: Standing = Standing {
    left: ENTRY_LIMIT,
    ended: false,
    waits: false,
};

/// How an endpoint or a host stands.
#[derive(Clone, Copy, Debug, PartialEq, Eq)]
pub struct Standing {
    /// How many of 65,536 entries are left to it.
    pub left: u64,
    /// Whether it has ended: an endpoint left, or a host ended.
    pub ended: bool,
    /// Whether it found nothing to take, and was not woken since.
    pub waits: bool,
}

/// Room for the standing of each number below this one, and for this one.
pub fn extend(rows: &mut Vec<Standing>, n: u64) -> Result<(), NoMemory>
    ensures alike { AreAlike rows.old.items rows.new.items }
    ensures there { OnOk result (n < vec_len rows.new) }
{
    for k in rows.len() as u64..n {
        push_fresh(rows)?;
    }
    if rows.len() as u64 <= n {
        push_fresh(rows)?;
    }
    Ok(())
}

/// One more, of which nothing is known.
fn push_fresh(rows: &mut Vec<Standing>) -> Result<(), NoMemory>
    ensures alike { AreAlike rows.old.items rows.new.items }
    ensures longer { OnOk result (vec_len rows.new ≡ vec_len rows.old + 1) }
{
    match rows.push(FRESH) {
        Ok(()) => Ok(()),
        Err(_) => Err(NoMemory),
    }
}

/// How number n stands.
pub fn standing_at(rows: &Vec<Standing>, n: u64) -> Standing
    ensures { result ≡ standing_at rows.now.items n }
{
    if n < rows.len() as u64 {
        return rows[n as usize];
    }
    FRESH
}

/// Counts an entry of number n, which is its last or not. It waits no longer. Answers whether no further one is left
/// to it, and it has not ended.
pub fn count(rows: &mut Vec<Standing>, n: u64, last: bool) -> bool
    requires { n < vec_len rows.old }
    ensures counted { HasCounted (λ k. n == k) last rows.old.items rows.new.items }
    ensures moves { (standing_at rows.new.items n).waits ≡ false }
    ensures out { result ≡ is_out (standing_at rows.new.items n) }
{
    let row = &mut rows[n as usize];
    row.left = row.left.saturating_sub(1);
    row.ended = row.ended || last;
    row.waits = false;
    row.left == 0 && !row.ended
}

/// Sets or clears that number n waits.
pub fn set_waits(rows: &mut Vec<Standing>, n: u64, waits: bool)
    ensures set { n < vec_len rows.old → (standing_at rows.new.items n).waits ≡ waits }
    ensures alike { AreAlike rows.old.items rows.new.items }
{
    if n < rows.len() as u64 {
        rows[n as usize].waits = waits;
    }
}
