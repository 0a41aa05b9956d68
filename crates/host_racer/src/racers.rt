//! What a racer does for its acts, and their repeats, which call one another.

ghost use Rattle.std.specs.Prelude.{◌≡◌, IfErr, OnOk, length};
ghost use Rattle.sgx_base.specs.declared.TheConstants.Status.{SUCCESS};
ghost use Rattle.word_port.specs.Runs.{Makes};
ghost use Rattle.call_copy.specs.Stops.{IsCutShort};
ghost use Rattle.call_machine.specs.Acts.{act_of, acts_from, repeat as repeat_of};
ghost use Rattle.call_machine.specs.Thread.{racer_acts};
ghost use Rattle.host_racer.specs.Racing.{IsAimed, IsRacerAct, AreRacerActs, racer, raced};

use call_copy::put_range;
use call_script::{HostAct, Place};
use word_port::{RunFull, Side, WordPort};

/// Writes bytes from an address on, all in host memory.
fn poke<P: WordPort>(port: &mut P, place: Place, bytes: &[u8]) -> Result<(), RunFull>
    requires { IsAimed (P.state port.old).host place (length bytes.now) }
    ensures ok { OnOk result (Makes
        (act_of (racer (P.state port.old).host) (HostAct.Poke place bytes.now) SUCCESS)
        (P.state port.old) (P.state port.new) raced) }
    ensures full { IfErr result (IsCutShort
        (act_of (racer (P.state port.old).host) (HostAct.Poke place bytes.now) SUCCESS)
        (P.state port.old) (P.state port.new)) }
{
    let Place::At(address) = place else {
        unreachable!();
    };
    put_range(port, Side::Racer, address, bytes)
}

/// Does the acts so many times.
#[cycle(racing)]
fn repeat<P: WordPort>(port: &mut P, times: u32, acts: &[HostAct]) -> Result<(), RunFull>
    requires { AreRacerActs (P.state port.old).host acts.now }
    ensures ok { OnOk result (Makes
        (repeat_of times (acts_from (racer (P.state port.old).host) acts.now) SUCCESS)
        (P.state port.old) (P.state port.new) raced) }
    ensures full { IfErr result (IsCutShort
        (repeat_of times (acts_from (racer (P.state port.old).host) acts.now) SUCCESS)
        (P.state port.old) (P.state port.new)) }
{
    for _turn in 0..times {
        run_racer(port, acts)?;
    }
    Ok(())
}

/// Does one act.
#[cycle(racing)]
fn do_act<P: WordPort>(port: &mut P, act: &HostAct) -> Result<(), RunFull>
    requires { IsRacerAct (P.state port.old).host act.now }
    ensures ok { OnOk result (Makes (act_of (racer (P.state port.old).host) act.now SUCCESS)
        (P.state port.old) (P.state port.new) raced) }
    ensures full { IfErr result (IsCutShort (act_of (racer (P.state port.old).host) act.now SUCCESS)
        (P.state port.old) (P.state port.new)) }
{
    match act {
        HostAct::Poke { at, bytes } => poke(port, *at, bytes.as_slice()),
        HostAct::Repeat { times, acts } => repeat(port, *times, acts.as_slice()),
        _ => unreachable!(),
    }
}

/// What a racer does for its acts, in order: it writes their bytes, and makes no record.
///
/// It takes no memory.
#[cycle(racing)]
pub fn run_racer<P: WordPort>(port: &mut P, acts: &[HostAct]) -> Result<(), RunFull>
    requires { AreRacerActs (P.state port.old).host acts.now }
    ensures ok { OnOk result (Makes (racer_acts (P.state port.old).host acts.now)
        (P.state port.old) (P.state port.new) raced) }
    ensures full { IfErr result (IsCutShort (racer_acts (P.state port.old).host acts.now)
        (P.state port.old) (P.state port.new)) }
{
    for act in acts {
        do_act(port, act)?;
    }
    Ok(())
}
