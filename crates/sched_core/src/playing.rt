//! Lines, played.
ghost use Rattle.std.specs.Prelude.{◌≡◌, map, OnOk, IfErr};
ghost use Rattle.flux_defs.specs.Histories.{IsLegal};
ghost use Rattle.flux_defs.specs.Sound.{IsSoundThroughout};
ghost use Rattle.flux_defs.specs.Scripts.{client_line};
ghost use Rattle.sched_core.specs.Played.{AreProper, IsPlayed, IsPlayedInPart};

use crate::scheduler::Core;
use flux_defs::{ClientLine, Line};
use std::alloc::AllocError;

/// Decides the lines in their order. The only error is want of memory; then only the first of them were decided.
pub fn play(core: &mut Core, lines: Vec<ClientLine>) -> Result<(), AllocError>
    requires { AreProper core.old.setting.graph.vertices lines.items }
    ensures played { OnOk result (IsPlayed core.old core.new lines.items) }
    ensures err { IfErr result (λ _. IsPlayedInPart core.old core.new lines.items) }
    ensures legal { IsLegal core.new.setting core.new.journal }
    ensures sound { IsSoundThroughout core.new.setting.graph.vertices core.new.journal }
{
    let answer = play_all(core, lines);
    core.is_sound();
    answer
}

/// Decides the lines of one client in their order, as `play` does.
pub fn play_client(core: &mut Core, client: u32, lines: Vec<Line>) -> Result<(), AllocError>
    requires { AreProper core.old.setting.graph.vertices (map (client_line client) lines.items) }
    ensures played { OnOk result (IsPlayed core.old core.new (map (client_line client) lines.items)) }
    ensures err { IfErr result (λ _. IsPlayedInPart core.old core.new (map (client_line client) lines.items)) }
    ensures legal { IsLegal core.new.setting core.new.journal }
    ensures sound { IsSoundThroughout core.new.setting.graph.vertices core.new.journal }
{
    let answer = play_all_of(core, client, lines);
    core.is_sound();
    answer
}

fn play_all_of(core: &mut Core, client: u32, lines: Vec<Line>) -> Result<(), AllocError>
    requires { AreProper core.old.setting.graph.vertices (map (client_line client) lines.items) }
    ensures played { OnOk result (IsPlayed core.old core.new (map (client_line client) lines.items)) }
    ensures err { IfErr result (λ _. IsPlayedInPart core.old core.new (map (client_line client) lines.items)) }
{
    for told in lines {
        let Line { line, command } = told;
        if let Err((_, fault)) = core.decide(client, line, command) {
            return Err(fault);
        }
    }
    Ok(())
}

fn play_all(core: &mut Core, lines: Vec<ClientLine>) -> Result<(), AllocError>
    requires { AreProper core.old.setting.graph.vertices lines.items }
    ensures played { OnOk result (IsPlayed core.old core.new lines.items) }
    ensures err { IfErr result (λ _. IsPlayedInPart core.old core.new lines.items) }
{
    for told in lines {
        let ClientLine {
            client,
            line,
            command,
        } = told;
        if let Err((_, fault)) = core.decide(client, line, command) {
            return Err(fault);
        }
    }
    Ok(())
}
