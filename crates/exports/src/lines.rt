// The code of a line: its key, and which part of the line it is.
ghost use Rattle.model.specs.Codes.{read_line};
ghost use Rattle.exports.specs.Told.{LineTold, PartTold};

use crate::types::{LineKey, LinePart};

// The key of a line's code.
#[unsafe(no_mangle)]
pub extern "C" fn lichenbrooch_code_key(line: &[u8]) -> LineKey
    ensures { LineTold result (read_line line.now) }
{
    LineKey::from(codes::code_key(line))
}

// Where the code lies in its line, behind the spaces at the start; its length is 0 where the line is refused.
#[unsafe(no_mangle)]
pub extern "C" fn lichenbrooch_code_part(line: &[u8]) -> LinePart
    ensures { PartTold result line.now }
{
    LinePart {
        start: codes::start_of(line),
        length: codes::code_part(line).len(),
    }
}
