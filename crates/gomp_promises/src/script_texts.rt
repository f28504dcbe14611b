//! Texts of scripts as they are read.

ghost use Rattle.std.specs.Prelude.{false, IfOk, IsErrOf};
ghost use Rattle.gomp_region.specs.declared.script.ScriptError.TheVariants.{Memory};
ghost use Rattle.gomp_region.specs.BlockEnds.{HaveEnds};
ghost use Rattle.gomp_region.specs.BlockGrammar.{WellNested};
ghost use Rattle.gomp_region.specs.ScriptText.{Gives, HasStatement, script_of};

use gomp_region::{Script, ScriptError};
use std::alloc::Global;

/// Reads a script.
pub fn parse_script(alloc: Global, text: &[u8]) -> Result<Script, ScriptError>
    ensures script { Gives (λ script. (script.team, script.lines.items, script.ends.items))
        result (script_of text.now) }
    ensures nest { IfOk result (λ script. WellNested 0 false script.lines.items) }
    ensures ends { IfOk result (λ script. HaveEnds script.lines.items script.ends.items) }
    ensures memory { IsErrOf result Memory → HasStatement (script_of text.now) }
{
    gomp_region::parse_script(alloc, text)
}
