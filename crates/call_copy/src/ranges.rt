//! Loads and stores of ranges of host memory.

ghost use Rattle.std.specs.Prelude.{ℕ, List, [], ◌∷◌, ◌≡◌, ◌<◌, ◌≤◌, ◌+◌, ◌^◌, length, replicate, slice_set, IfOk, IfErr, OnOk, IsTrue};
ghost use Rattle.sgx_base.specs.Ranges.{host_start, is_mapped};
ghost use Rattle.word_port.specs.Accesses.{word_at, loads, stores};
ghost use Rattle.word_port.specs.Port.{with_steps, IsFull};
ghost use Rattle.word_port.specs.Requests.{step_of, load_of, swap_of};
ghost use Rattle.word_port.specs.Runs.{Makes};
ghost use Rattle.word_port.specs.declared.RunFull.TheVariants.{Steps};
ghost use Rattle.enclave_memory.specs.Memory.{IsBlock, IsLive, IsWrite};
ghost use Rattle.call_copy.specs.Blocks.{IsSetTo};
ghost use Rattle.call_copy.specs.Stops.{IsCutShort};

use enclave_memory::{Arena, Block};
use sgx_base::HOST_START;
use word_port::{RunFull, Side, WordPort};

/// Loads a range of host memory into a block, byte by byte in rising address.
///
/// No other block changes. After an `Err` nothing is told of the bytes of this one.
pub fn fetch_range<P: WordPort>(
    port: &mut P,
    side: Side,
    at: u64,
    arena: &mut Arena,
    block: Block,
) -> Result<(), RunFull>
    requires mapped { IsTrue (is_mapped (P.state port.old).host at block.length) }
    requires live { IsLive arena.old block }
    ensures ok { OnOk result ((bytes : List ℕ)
        × Makes (loads side at block.length) (P.state port.old) (P.state port.new) bytes
        × IsWrite arena.old arena.new block bytes × IsSetTo arena.old arena.new block bytes) }
    ensures full { IfErr result (IsCutShort (loads side at block.length) (P.state port.old) (P.state port.new)) }
    ensures kept { (number : ℕ) (first : List ℕ) → IsBlock arena.old block number first
        → (bytes : List ℕ) × (length bytes ≡ length first)
        × (arena.new ≡ record arena.old { blocks = slice_set arena.old.blocks number bytes }) }
{
    for i in 0..block.length {
        let byte = load_byte(port, side, at, u64::from(i))?;
        arena.write(block, i, &[byte]);
    }
    Ok(())
}

/// Loads the bytes from an address on, in rising address.
///
/// After an `Err` nothing is told of the bytes.
#[tactic(auto, using(word_port::proofs::AccessLaws::access_laws))]
pub fn load_bytes<P: WordPort>(
    port: &mut P,
    side: Side,
    at: u64,
    out: &mut [u8],
) -> Result<(), RunFull>
    requires from { host_start ≤ at }
    requires upto { at + length out.old ≤ host_start + (P.state port.old).host }
    ensures ok { OnOk result (Makes (loads side at (length out.old)) (P.state port.old) (P.state port.new) out.new) }
    ensures full { IfErr result (IsCutShort (loads side at (length out.old)) (P.state port.old) (P.state port.new)) }
{
    for i in 0..out.len() {
        out[i] = load_byte(port, side, at, i as u64)?;
    }
    Ok(())
}

/// Stores bytes into a range of host memory, byte by byte in rising address.
#[tactic(auto, using(word_port::proofs::AccessLaws::access_laws))]
pub fn put_range<P: WordPort>(
    port: &mut P,
    side: Side,
    at: u64,
    bytes: &[u8],
) -> Result<(), RunFull>
    requires mapped { IsTrue (is_mapped (P.state port.old).host at (length bytes.now)) }
    ensures ok { OnOk result (Makes (stores side at bytes.now) (P.state port.old) (P.state port.new) tt) }
    ensures full { IfErr result (IsCutShort (stores side at bytes.now) (P.state port.old) (P.state port.new)) }
{
    for i in 0..bytes.len() {
        store_byte(port, side, at, i as u64, bytes[i])?;
    }
    Ok(())
}

/// Stores zeros so many bytes past an address.
#[tactic(auto, using(word_port::proofs::AccessLaws::access_laws))]
pub fn put_zeros<P: WordPort>(
    port: &mut P,
    side: Side,
    at: u64,
    past: u64,
    count: u32,
) -> Result<(), RunFull>
    requires mapped { IsTrue (is_mapped (P.state port.old).host (at + past) count) }
    requires from { host_start ≤ at }
    requires fits { past + count < 2 ^ 64 }
    ensures ok { OnOk result
        (Makes (stores side (at + past) (replicate count 0)) (P.state port.old) (P.state port.new) tt) }
    ensures full { IfErr result
        (IsCutShort (stores side (at + past) (replicate count 0)) (P.state port.old) (P.state port.new)) }
{
    for i in 0..count {
        store_byte(port, side, at, past + u64::from(i), 0)?;
    }
    Ok(())
}

/// Loads the byte that is so many bytes past an address.
fn load_byte<P: WordPort>(port: &mut P, side: Side, at: u64, past: u64) -> Result<u8, RunFull>
    requires from { host_start ≤ at }
    requires upto { at + past < host_start + (P.state port.old).host }
    ensures ok { IfOk result (λ byte.
        P.state port.new ≡ with_steps (P.state port.old) (step_of (load_of side (word_at (at + past))) byte ∷ [])) }
    ensures full { IfErr result (λ full. (full ≡ Steps)
        × IsFull (P.state port.new) × (P.state port.new ≡ P.state port.old)) }
{
    if port.spare() == 0 {
        return Err(RunFull::Steps);
    }
    let word = word_of(port, at, past);
    Ok(port.load(side, word) as u8)
}

/// Stores a byte so many bytes past an address, and gives the one that stood there.
fn store_byte<P: WordPort>(
    port: &mut P,
    side: Side,
    at: u64,
    past: u64,
    byte: u8,
) -> Result<u8, RunFull>
    requires from { host_start ≤ at }
    requires upto { at + past < host_start + (P.state port.old).host }
    ensures ok { IfOk result (λ found. P.state port.new
        ≡ with_steps (P.state port.old) (step_of (swap_of side (word_at (at + past)) byte) found ∷ [])) }
    ensures full { IfErr result (λ full. (full ≡ Steps)
        × IsFull (P.state port.new) × (P.state port.new ≡ P.state port.old)) }
{
    if port.spare() == 0 {
        return Err(RunFull::Steps);
    }
    let word = word_of(port, at, past);
    Ok(port.swap(side, word, u64::from(byte)) as u8)
}

/// The word of the byte that is so many bytes past an address.
fn word_of<P: WordPort>(port: &P, at: u64, past: u64) -> u32
    requires from { host_start ≤ at }
    requires upto { at + past < host_start + (P.state port.now).host }
    ensures word { result ≡ word_at (at + past) }
    ensures host { result < (P.state port.now).host }
    ensures within { result < (P.state port.now).words }
{
    let _host = port.host();
    (at + past - HOST_START) as u32
}
