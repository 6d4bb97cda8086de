//! A worked history of two scripts, computed by the definitions.
ghost use Rattle.std.specs.Prelude.{◌≡◌, ◌∷◌, [], Some};
ghost use Rattle.net_base.specs.Callers.{IsScript, caller_of};
ghost use Rattle.net_base.specs.Legal.{IsLegal};
ghost use Rattle.net_base.specs.Next.{zone_of};
ghost use Rattle.net_base.specs.World.{IsWorld};
ghost use Rattle.net_base.specs.Written.{peer};
ghost use Rattle.prefix_law.specs.ImportLaw.{calls, got_back};
ghost use Rattle.prefix_law.specs.Scripted.{is_importing, scripted};
ghost use Rattle.prefix_law.specs.WorldImports.{AllExported, AllImported};
ghost use Rattle.net_model.specs.WorkedImport.{answers_attach, answers_version, asks_attach, asks_version};
ghost use Rattle.net_model.specs.WorkedImport.{helix_side, anna_side, carried_history, carried_world, exporter, importer};

/// The law of imports speaks of such a world, in 70 entries: its premises hold of both scripts, and each message has its reply.
pub fn a_call_carries_files()
    ensures call { IsWorld carried_world × IsLegal carried_world carried_history
        × (peer carried_world carried_history anna_side ≡ Some helix_side) }
    ensures near { (caller_of carried_world 0 ≡ IsScript importer)
        × AllImported carried_world carried_history 0 importer anna_side }
    ensures far { (caller_of carried_world 1 ≡ IsScript exporter)
        × AllExported carried_world carried_history 1 exporter helix_side }
    ensures calls { calls carried_history 0 anna_side (scripted (zone_of carried_world) importer) is_importing
        ≡ asks_version ∷ asks_attach ∷ [] }
    ensures replies { got_back carried_history 0 anna_side (scripted (zone_of carried_world) importer) is_importing
        ≡ answers_version ∷ answers_attach ∷ [] }
{}
