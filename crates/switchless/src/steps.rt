//! Single steps on slots, where the log has room for them.

ghost use Rattle.std.specs.Prelude.{◌≡◌, ◌<◌, ◌+◌, IfOk, IfErr};
ghost use Rattle.word_port.specs.Accesses.{load as loaded, swap as swapped, cas as exchanged};
ghost use Rattle.word_port.specs.Runs.{Makes, StopsFull};
ghost use Rattle.word_port.specs.declared.RunFull.TheVariants.{Steps};
ghost use Rattle.word_port.specs.declared.Side.TheVariants.{Pool as ByPool};
ghost use Rattle.switchless.specs.Tasks.{IsPastHost, HasSlots};

use crate::Pool;
use word_port::{RunFull, Side, WordPort};

/// Loads a slot's word.
pub(crate) fn load<P: WordPort>(port: &mut P, slot: u32) -> Result<u64, RunFull>
    requires slot { IsPastHost (P.state port.old) slot }
    ensures ok { IfOk result (λ word. Makes (loaded ByPool slot) (P.state port.old) (P.state port.new) word) }
    ensures full { IfErr result (λ full. (full ≡ Steps)
        × StopsFull (loaded ByPool slot) (P.state port.old) (P.state port.new)) }
{
    if port.spare() == 0 {
        return Err(RunFull::Steps);
    }
    Ok(port.load(Side::Pool, slot))
}

/// Puts a word into a slot, and gives the one that stood there.
pub(crate) fn swap<P: WordPort>(port: &mut P, slot: u32, word: u64) -> Result<u64, RunFull>
    requires slot { IsPastHost (P.state port.old) slot }
    ensures ok { IfOk result (λ found. Makes (swapped ByPool slot word) (P.state port.old) (P.state port.new) found) }
    ensures full { IfErr result (λ full. (full ≡ Steps)
        × StopsFull (swapped ByPool slot word) (P.state port.old) (P.state port.new)) }
{
    if port.spare() == 0 {
        return Err(RunFull::Steps);
    }
    Ok(port.swap(Side::Pool, slot, word))
}

/// Puts a word into a slot where another one stands there, and gives the one that stood there.
pub(crate) fn cas<P: WordPort>(port: &mut P, slot: u32, old: u64, new: u64) -> Result<u64, RunFull>
    requires slot { IsPastHost (P.state port.old) slot }
    ensures ok { IfOk result (λ found. Makes (exchanged ByPool slot old new)
        (P.state port.old) (P.state port.new) found) }
    ensures full { IfErr result (λ full. (full ≡ Steps)
        × StopsFull (exchanged ByPool slot old new) (P.state port.old) (P.state port.new)) }
{
    if port.spare() == 0 {
        return Err(RunFull::Steps);
    }
    Ok(port.cas(Side::Pool, slot, old, new))
}

/// The slot at a place of a pool.
pub(crate) fn slot_at<P: WordPort>(port: &P, pool: &Pool, place: u32) -> u32
    requires slots { HasSlots (P.state port.now) pool.now }
    requires place { place < pool.now.slots }
    ensures slot { result ≡ pool.now.from + place }
    ensures past_host { IsPastHost (P.state port.now) result }
{
    let _words = port.words();
    pool.from + place
}
