//! The words of a script before a run: host bytes, cells, the slots of both pools, the stop word.

ghost use Rattle.std.specs.Prelude.{◌≡◌, ◌≤◌, ◌*◌, length, fold, if◌then◌else◌, IfOk, OnOk};
ghost use Rattle.sgx_base.specs.Stores.{max_file_size};
ghost use Rattle.call_script.specs.Meaning as meaning;
ghost use Rattle.script_lines.specs.Lines as lines;
ghost use Rattle.script_value.specs.Left.{formed_lines};
ghost use Rattle.script_value.specs.Initial.{words_of};

use crate::lines::{all_lines, next_formed};
use call_script::Settings;
use script_lines::Line;
use script_values::bytes_of;
use script_words::number_of;
use sgx_base::HOST_START;
use sqlite_items::Items;
use std::alloc::{AllocError, Global};

/// So many words that are 0.
fn zeros(alloc: Global, count: usize) -> Result<Items<u64>, AllocError>
    ensures { IfOk result (λ words. words ≡ meaning.zeros count) }
{
    Ok(Items::from_vec(vec![in alloc; 0; count]?))
}

/// The index of the host byte at an address.
pub fn index_of(address: &[u8]) -> u64
    ensures { result ≡ meaning.index_of address.now }
{
    number_of(address).saturating_sub(HOST_START)
}

/// Writes the bytes one after another, from an index on. What lies behind the end is not written.
#[tactic(auto, using(crate::proofs::WordLaws::written_past))]
fn write(host: &mut Items<u64>, at: usize, bytes: &[u8])
    ensures { host.new ≡ meaning.written host.old at bytes.now }
{
    let mut index = at;
    for byte in bytes {
        if index >= host.len() {
            return;
        }
        host.set(index, u64::from(*byte));
        index += 1;
    }
}

/// Writes the bytes of the line.
fn write_bytes(alloc: Global, host: &mut Items<u64>, line: &Line) -> Result<(), AllocError>
    ensures { OnOk result (host.new ≡ meaning.host_behind host.old (lines.line_of line.now)) }
{
    if let Line::Bytes { address, hex } = line {
        let bytes = bytes_of(alloc, hex)?;
        write(host, index_of(address) as usize, bytes.as_slice());
    }
    Ok(())
}

/// Writes the cell of the line.
fn write_cell(cells: &mut Items<u64>, line: &Line)
    ensures { cells.new ≡ meaning.cells_behind cells.old (lines.line_of line.now) }
{
    if let Line::Cell { cell, value } = line {
        let index = number_of(cell) as usize;
        if index < cells.len() {
            cells.set(index, number_of(value));
        }
    }
}

/// How many slots there are in both pools, for a program with threads or one without.
fn slot_count(racing: bool, settings: Settings) -> usize
    requires { settings.slots ≤ 8 }
    ensures { result ≡ (if racing then 2 * settings.slots else 0) }
{
    if racing {
        2 * settings.slots as usize
    } else {
        0
    }
}

/// Host memory and the cells, as the lines of a script leave them.
struct Memory {
    host: Items<u64>,
    cells: Items<u64>,
}

#[tactic(auto, using(crate::proofs::FoldLaws::fold_turn, crate::proofs::FoldLaws::fold_end))]
fn written_memory(alloc: Global, settings: Settings, bytes: &[u8]) -> Result<Memory, AllocError>
    requires { length bytes.now ≤ max_file_size }
    ensures host { IfOk result (λ m. m.host
        ≡ fold meaning.host_behind (meaning.zeros settings.host) (formed_lines bytes.now)) }
    ensures cells { IfOk result (λ m. m.cells
        ≡ fold meaning.cells_behind (meaning.zeros settings.cells) (formed_lines bytes.now)) }
{
    let mut host = zeros(alloc, settings.host as usize)?;
    let mut cells = zeros(alloc, settings.cells as usize)?;
    let mut lines = all_lines(alloc, bytes);
    loop {
        match next_formed(&mut lines) {
            Ok(Some(line)) => {
                write_bytes(alloc, &mut host, &line)?;
                write_cell(&mut cells, &line);
            }
            Ok(None) => return Ok(Memory { host, cells }),
            Err(error) => return Err(error),
        }
    }
}

/// The words before a run of a script with these settings.
pub fn words(
    alloc: Global,
    racing: bool,
    settings: Settings,
    bytes: &[u8],
) -> Result<Items<u64>, AllocError>
    requires short { length bytes.now ≤ max_file_size }
    requires slots { settings.slots ≤ 8 }
    ensures { IfOk result (λ words. words ≡ words_of racing settings (formed_lines bytes.now)) }
{
    let Memory { host, cells } = written_memory(alloc, settings, bytes)?;
    let mut words = host;
    words.append(cells)?;
    words.append(zeros(alloc, slot_count(racing, settings))?)?;
    words.push(0)?;
    Ok(words)
}
