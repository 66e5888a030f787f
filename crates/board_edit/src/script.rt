// Scripts of edits, read line by line.
ghost use Rattle.std.specs.Prelude.{◌≡◌, All, IfOk, IfErr, OnOk};
ghost use Rattle.edit_language.specs.Scripts.{AreEdits, IsWritten};
ghost use Rattle.board_edit.specs.Scripts.{IsScriptRefusal};
ghost use Rattle.board_edit.specs.Inner.Reading.{IsLineRead, IsLineRefused};

use crate::error::ScriptError;
use crate::fault::fault_of;
use crate::line::edit_of;
use crate::words::{first_line, is_passed_over, words_of};
use edit_language::{Edit, EditFault};
use std::alloc::Global;
use std::marker::Model;

/// The edits of a script, in its order. Contracts see them as a list; each is one that some line gives.
#[derive(Debug, Drop)]
pub struct Script {
    edits: Vec<Edit>,
}

impl Model for Script {
    ghost use Rattle.std.specs.Prelude.{List, All};
    ghost use Rattle.edit_language.specs.declared.edit.Edit.{Edit};
    ghost use Rattle.edit_language.specs.Scripts.{IsWritten};

    ghost Value = { List Edit };

    ghost view = { λ s. s.edits.items };

    ghost invariant = { λ s. All IsWritten s.edits.items };
}

/// Reads a line behind these edits, and puts its edit, where it has one, behind them.
fn read_line(
    alloc: Global,
    edits: &mut Vec<Edit>,
    number: u64,
    line: &[u8],
) -> Result<(), ScriptError>
    ensures read { OnOk result (IsLineRead edits.old.items number line.now edits.new.items) }
    ensures refused { IfErr result (IsLineRefused edits.old.items number line.now) }
{
    let words = words_of(alloc, line)?;
    if is_passed_over(&words) {
        return Ok(());
    }
    if let Some(kind) = fault_of(edits.len(), &words) {
        return Err(ScriptError::Bad(EditFault { line: number, kind }));
    }
    let edit = edit_of(alloc, &words)?;
    edits.push(edit)?;
    Ok(())
}

impl Script {
    /// Reads a script.
    ///
    /// # Errors
    ///
    /// Want of memory, or the first faulty line with the first thing that is wrong in it.
    pub fn read(alloc: Global, bytes: &[u8]) -> Result<Script, ScriptError>
        ensures edits { IfOk result (AreEdits bytes.now) }
        ensures refused { IfErr result (IsScriptRefusal bytes.now) }
    {
        let mut edits = Vec::new(alloc);
        let mut number = 1;
        let mut rest = Some(bytes);
        'lines: while let Some(text) = rest {
            let (line, behind) = first_line(text);
            read_line(alloc, &mut edits, number, line)?;
            number += 1;
            rest = behind;
        }
        Ok(Script { edits })
    }

    /// The edits.
    pub fn edits(&self) -> &[Edit]
        ensures value { result.now ≡ self.now }
        ensures written { All IsWritten result.now }
    {
        &self.edits
    }
}
