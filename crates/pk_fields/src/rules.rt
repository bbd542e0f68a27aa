ghost use Rattle.std.specs.Prelude.{◌≡◌};

use crate::apps::App;
use std::marker::Model;

/// The application of a port, in place of the usual one.
#[derive(Clone, Copy)]
pub struct PortRule {
    /// Whether it is a port of TCP, else of UDP.
    pub tcp: bool,
    pub port: u16,
    pub app: App,
}

/// A list of rules for ports.
#[derive(Drop)]
pub struct PortRules {
    all: Vec<PortRule>,
}

impl Model for PortRules {
    ghost use Rattle.std.specs.Prelude.{List};
    ghost use Rattle.pk_fields.specs.declared.rules.PortRule.{PortRule};

    ghost Value = { List PortRule };

    ghost view = { λ rules. rules.all.items };
}

impl PortRules {
    pub fn from_vec(v: Vec<PortRule>) -> PortRules
        ensures { result ≡ v.items }
    {
        PortRules { all: v }
    }

    pub fn slice(&self) -> &[PortRule]
        ensures { result.now ≡ self.now }
    {
        self.all.as_slice()
    }
}

/// Which ports are read as other applications than usual.
#[derive(Drop)]
pub struct DecodeAs {
    pub rules: PortRules,
}
