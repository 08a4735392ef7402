//! What is true of each load.
ghost use Rattle.std.specs.Prelude.{◌≤◌};
ghost use Rattle.px_load.specs.declared.script.Load.{Load as Loads};
ghost use Rattle.px_load.specs.Script.{load_text};
ghost use Rattle.px_script.specs.Scripts.{IsReadableScript};

/// The script of a load is one that is run.
pub fn law_load()
    ensures { (load : Loads) → load.rows ≤ 100000 → IsReadableScript (load_text load) }
{}
