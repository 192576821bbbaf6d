//! What stands before a line.
ghost use Rattle.std.specs.Prelude.{◌≡◌, ◌++◌, OnOk, string_bytes};
ghost use Rattle.au_explain.specs.Lines.{margin};

use au_value::NoMemory;

/// Two blanks for each level.
pub fn push_margin(out: &mut String, depth: usize) -> Result<(), NoMemory>
    ensures { OnOk result (string_bytes out.new ≡ string_bytes out.old ++ margin depth) }
{
    for _ in 0..depth {
        out.push_str("  ")?;
    }
    Ok(())
}
