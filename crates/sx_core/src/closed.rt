// Which tables are closed to a client's transaction.
ghost use Rattle.std.specs.Prelude.{◌≡◌, ◌∷◌, [], Some, IfSome};
ghost use Rattle.sx_values.specs.Names.{has_name};
ghost use Rattle.sx_ops.specs.Checks.{IsShaped};
ghost use Rattle.sx_ops.specs.Operators.{sources_of, targets_of};
ghost use Rattle.sx_model.specs.Leaves.{txn_of};
ghost use Rattle.sx_model.specs.Closed.{closed, unless_new, if_drained, if_gone};
ghost use Rattle.sx_model.specs.Switches.{has_lock_on};

use crate::Core;
use sx_journal::Reply;
use sx_ops::Spec;
use sx_sync::Phase;
use sx_values::Name;

impl Core {
    // Why a table is closed to a client's transaction, if it is.
    pub(crate) fn closed(&self, actor: u8, txn: u64, table: &Name) -> Option<Reply>
        requires { txn_of self.now.past actor ≡ Some txn }
        ensures { result ≡ closed self.now.past actor table.now }
    {
        let Some(spec) = &self.spec else {
            return None;
        };
        match self.phase {
            Phase::Idle => None,
            Phase::Scanning | Phase::Chasing => hidden(spec, table),
            Phase::Draining => match hidden(spec, table) {
                Some(refusal) => Some(refusal),
                None => self.drained(actor, txn, spec, table),
            },
            Phase::Late | Phase::Done => gone(spec, table),
        }
    }

    // While old transactions are drained, a source is closed to those without a lock on it.
    fn drained(&self, actor: u8, txn: u64, spec: &Spec, table: &Name) -> Option<Reply>
        requires inside { txn_of self.now.past actor ≡ Some txn }
        requires shaped { IsShaped spec.now }
        ensures { result ≡ if_drained (has_name (sources_of spec.now) table.now) (has_lock_on (sources_of spec.now) actor self.now.past) }
    {
        if is_source(spec, table) && !self.locks_source(actor, txn, spec) {
            Some(Reply::Draining)
        } else {
            None
        }
    }

    // Whether a client's transaction has a lock on the source.
    fn locks_source(&self, actor: u8, txn: u64, spec: &Spec) -> bool
        requires inside { txn_of self.now.past actor ≡ Some txn }
        requires shaped { IsShaped spec.now }
        ensures { result ≡ has_lock_on (sources_of spec.now) actor self.now.past }
    {
        match spec {
            Spec::Part { table, .. } => self.manager.locks().any_on(txn, table),
            _ => unreachable!(),
        }
    }
}

// A new table is hidden until the switch.
fn hidden(spec: &Spec, table: &Name) -> Option<Reply>
    ensures { result ≡ unless_new (has_name (targets_of spec.now) table.now) None }
{
    if is_new(spec, table) {
        Some(Reply::Hidden)
    } else {
        None
    }
}

// Behind the switch a source is gone.
fn gone(spec: &Spec, table: &Name) -> Option<Reply>
    ensures { result ≡ if_gone (has_name (sources_of spec.now) table.now) }
{
    if is_source(spec, table) {
        Some(Reply::Gone)
    } else {
        None
    }
}

// Whether a name is that of a new table of a transformation.
fn is_new(spec: &Spec, name: &Name) -> bool
    ensures { result ≡ has_name (targets_of spec.now) name.now }
{
    match spec {
        Spec::Join { into, .. } | Spec::Union { into, .. } => name == into,
        Spec::Split {
            rest,
            dependent,
            ..
        } => name == rest || name == dependent,
        Spec::Part { yes, no, .. } => name == yes || name == no,
    }
}

// Whether a name is that of a source of a transformation.
pub(crate) fn is_source(spec: &Spec, name: &Name) -> bool
    ensures { result ≡ has_name (sources_of spec.now) name.now }
{
    match spec {
        Spec::Join { left, right, .. } | Spec::Union { left, right, .. } => {
            name == left || name == right
        }
        Spec::Split { table, .. } | Spec::Part { table, .. } => name == table,
    }
}
