//! Why a line of a script is refused, and by which layer.
ghost use Rattle.std.specs.Prelude.{◌≡◌, Some};
ghost use Rattle.session.specs.Refusals.{numbered, group_of, layer_of, layer_word};
ghost use Rattle.session.specs.declared.faults.ScriptFault.TheVariants.{Fabric, Label, Plan};

use fabric::faults::FabricFault;
use labels::faults::LabelFault;
use planner::flow_sets::FlowSet;
use planner::plan_faults::PlanFault;
use std::fmt;

/// The fault of a line; that of a lower layer stands whole inside.
#[derive(Clone, Copy, PartialEq, Eq, Debug)]
pub(crate) enum ScriptFault {
    /// 6: the line has no form of a script.
    NoForm,
    /// 19: the plan's state does not allow the call.
    WrongState,
    Fabric(FabricFault),
    Label(LabelFault),
    Plan(PlanFault),
}

// These by hand, since contracts name the fault that a `?` makes.
impl From<FabricFault> for ScriptFault {
    ghost from_gives = { λ e r. r ≡ Fabric e };

    fn from(e: FabricFault) -> ScriptFault {
        ScriptFault::Fabric(e)
    }
}

impl From<LabelFault> for ScriptFault {
    ghost from_gives = { λ e r. r ≡ Label e };

    fn from(e: LabelFault) -> ScriptFault {
        ScriptFault::Label(e)
    }
}

impl From<PlanFault> for ScriptFault {
    ghost from_gives = { λ e r. r ≡ Plan e };

    fn from(e: PlanFault) -> ScriptFault {
        ScriptFault::Plan(e)
    }
}

impl ScriptFault {
    /// The number by which the refusal is known.
    pub(crate) fn number(self) -> u8
        ensures { result ≡ (numbered self).0 }
    {
        match self {
            ScriptFault::NoForm => 6,
            ScriptFault::WrongState => 19,
            ScriptFault::Fabric(fault) => fault.number(),
            ScriptFault::Label(fault) => fault.number(),
            ScriptFault::Plan(fault) => fault.number(),
        }
    }

    /// The layer that is told. It goes by the refusal's number: two layers may refuse with the same.
    pub(crate) fn layer(self) -> Layer
        ensures { result ≡ layer_of (numbered self).0 }
    {
        match self.number() {
            2 | 3 => Layer::Fabric,
            7 | 20 | 21 => Layer::Label,
            6 | 19 => Layer::Script,
            _ => Layer::Plan,
        }
    }

    /// The flows that the refusal names, where it names a group.
    pub(crate) fn group(self) -> Option<FlowSet>
        ensures { result ≡ group_of self }
    {
        match self {
            ScriptFault::Plan(PlanFault::NoOrder(group) | PlanFault::NoPlacing(group)) => {
                Some(group)
            }
            _ => None,
        }
    }
}

/// The layers that a refusal is told of.
#[derive(Clone, Copy, PartialEq, Eq, Debug)]
pub(crate) enum Layer {
    Fabric,
    Label,
    Script,
    Plan,
}

impl fmt::Display for Layer {
    ghost output = { λ layer. Some (layer_word layer) };

    fn fmt<W: fmt::Write>(&self, f: &mut fmt::Formatter<W>) -> fmt::Result {
        match self {
            Layer::Fabric => write!(f, "fabric"),
            Layer::Label => write!(f, "label"),
            Layer::Script => write!(f, "script"),
            Layer::Plan => write!(f, "plan"),
        }
    }
}
