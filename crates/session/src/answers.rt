//! The text of an answer.
ghost use Rattle.std.specs.Prelude.{Some};
ghost use Rattle.session.specs.Answers.{answer_line};

use crate::faults::ScriptFault;
use crate::rows::group_row;
use script::groups::Group;
use std::fmt;

/// The answer to the line of this number.
#[derive(Clone, Copy, PartialEq, Eq, Debug)]
pub(crate) struct AnswerLine {
    pub(crate) given: Result<(), ScriptFault>,
    pub(crate) number: usize,
}

/// `ok`, or `no` with the refusal's number, the line's, the layer, and the group's flows if there is a group.
impl fmt::Display for AnswerLine {
    ghost output = { λ line. Some (answer_line line.given line.number) };

    fn fmt<W: fmt::Write>(&self, f: &mut fmt::Formatter<W>) -> fmt::Result {
        let Err(fault) = self.given else {
            return write!(f, "ok");
        };
        let refusal = fault.number();
        let line = self.number;
        let layer = fault.layer();
        match fault.group() {
            Some(group) => {
                let row = group_row(group);
                let flows = Group(&row);
                write!(f, "no {refusal} {line} {layer} {flows}")
            }
            None => write!(f, "no {refusal} {line} {layer}"),
        }
    }
}
