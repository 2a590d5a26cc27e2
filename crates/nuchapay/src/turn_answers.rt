//! What is said of a turn.

use crate::output::{tell, write_out};
use crate::places::{ScriptFile, method_text};
use crate::values::AskedTurn;
use nuchapay_runs::Explained;
use nuchapay_tool::{TurnName, TurnWord};
use swift_tool::ToolFault;

/// Says what is known of the turn of a script that a word names. The status to end with.
pub fn say_turn(
    rt: &HostRuntime,
    file: ScriptFile<'_>,
    word: TurnWord<'_>,
    found: Result<AskedTurn, ToolFault>,
) -> u8 {
    match found {
        Ok(AskedTurn::Turn(name, found)) => say_explained(rt, file, name, found),
        Ok(AskedTurn::NoTask) => say_no_task(rt, Some(word)),
        Err(fault) => tell(rt, Err(fault)),
    }
}

/// Says that there is no such task. The status to end with.
pub fn say_no_task(rt: &HostRuntime, word: Option<TurnWord<'_>>) -> u8 {
    if let Some(TurnWord::Named(name, _)) = word {
        let _ = eprintln!(rt; "nuchapay: the run has no task {name}");
    }
    2
}

/// Says what is known of the turn of a script that was meant, and from which lines of a Swift file its method is. The status to end with.
pub fn say_explained(
    rt: &HostRuntime,
    file: ScriptFile<'_>,
    name: TurnName,
    found: Explained,
) -> u8 {
    let TurnName { task, number } = name;
    match found {
        Explained::Found(said) => tell(rt, write_turn(rt, file, &said)),
        Explained::Folded => {
            let _ = eprintln!(rt;
                "nuchapay: t{task}.{number} was folded into a checkpoint, which keeps no fields of it"
            );
            2
        }
        Explained::Nowhere => {
            let _ = eprintln!(rt; "nuchapay: the run has no turn t{task}.{number}");
            2
        }
    }
}

// Writes what explains a turn, and behind it from which lines of a Swift file its method is: nothing before there is memory for both.
fn write_turn(rt: &HostRuntime, file: ScriptFile<'_>, said: &[u8]) -> Result<bool, ToolFault> {
    let method = method_text(rt.alloc(), file, said)?;
    write_out(rt, said)?;
    write_out(rt, &method)
}
