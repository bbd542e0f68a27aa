// The rules for ports of a run.
ghost use Rattle.std.specs.Prelude.{◌≡◌, IfOk};
ghost use Rattle.pk_fields.specs.Rules.{AreRules};

use pk_base::NoMemory;
use pk_fields::PortRules;
use std::alloc::Global;
use std::marker::Model;

/// Rules for ports: each application fits its transport, and no port of a transport stands twice.
#[derive(Drop)]
pub struct PlanRules {
    rules: PortRules,
}

impl Model for PlanRules {
    ghost use Rattle.std.specs.Prelude.{List};
    ghost use Rattle.pk_fields.specs.Rules.{AreRules};
    ghost use Rattle.pk_fields.specs.declared.rules.PortRule.{PortRule};

    ghost Value = { List PortRule };

    ghost view = { λ r. r.rules };

    ghost invariant = { λ r. AreRules r.rules };
}

impl PlanRules {
    pub fn new(rules: PortRules) -> PlanRules
        requires { AreRules rules }
        ensures { result ≡ rules }
    {
        PlanRules { rules }
    }

    /// The rules, for a dissector to keep.
    pub(crate) fn copy(&self, alloc: Global) -> Result<PortRules, NoMemory>
        ensures same { IfOk result (λ rules. rules ≡ self.now) }
        ensures rules { IfOk result AreRules }
    {
        copy_rules(alloc, &self.rules)
    }
}

/// Rules of their own, the same.
pub fn copy_rules(alloc: Global, rules: &PortRules) -> Result<PortRules, NoMemory>
    ensures { IfOk result (λ copy. copy ≡ rules.now) }
{
    Ok(PortRules::from_vec(Vec::from_slice(alloc, rules.slice())?))
}
