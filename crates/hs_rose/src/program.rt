//! The program of a list, as tables.

ghost use Rattle.std.specs.Prelude.{◌≡◌, map};
ghost use Rattle.hs_base.specs.LiteralView.{literal_bytes};

use crate::engine::PieceEngine;
use crate::identifiers::Identifier;
use crate::info::{ChainInfo, EntryInfo};
use crate::role::Role;
use hs_base::LitByte;
use std::marker::Model;

/// What a scan runs for a list: a role for each piece of each chain of each entry, in order.
#[derive(Debug, Drop)]
pub struct Program {
    entries: Vec<EntryInfo>,
    identifiers: Vec<Identifier>,
    chains: Vec<ChainInfo>,
    roles: Vec<Role>,
    literals: Vec<Vec<LitByte>>,
    engines: Vec<PieceEngine>,
}

impl Model for Program {
    ghost use Rattle.hs_rose.specs.Programs.{Tables, IsWhole};
    ghost use Rattle.hs_rose.specs.Views.{tables_of};

    ghost Value = { Tables };

    ghost view = { λ p. tables_of p.entries.items p.identifiers.items p.chains.items p.roles.items p.literals.items
        p.engines.items };

    ghost invariant = { λ p. IsWhole (tables_of p.entries.items p.identifiers.items p.chains.items p.roles.items
        p.literals.items p.engines.items) };
}

impl Program {
    ghost use Rattle.hs_rose.specs.Programs.{IsWhole};
    ghost use Rattle.hs_rose.specs.Views.{tables_of};

    /// The program of these tables.
    pub(crate) fn new(
        entries: Vec<EntryInfo>,
        identifiers: Vec<Identifier>,
        chains: Vec<ChainInfo>,
        roles: Vec<Role>,
        literals: Vec<Vec<LitByte>>,
        engines: Vec<PieceEngine>,
    ) -> Program
        requires { IsWhole (tables_of entries.items identifiers.items chains.items roles.items literals.items
            engines.items) }
        ensures { result ≡ tables_of entries.items identifiers.items chains.items roles.items literals.items
            engines.items }
    {
        Program {
            entries,
            identifiers,
            chains,
            roles,
            literals,
            engines,
        }
    }

    /// What is asked of each entry, in the order of the list.
    pub fn entries(&self) -> &[EntryInfo]
        ensures { result.now ≡ self.now.entries }
    {
        &self.entries
    }

    /// The identifiers of the entries, each once, rising.
    pub fn identifiers(&self) -> &[Identifier]
        ensures { result.now ≡ self.now.identifiers }
    {
        &self.identifiers
    }

    /// The chains of all entries, in order.
    pub fn chains(&self) -> &[ChainInfo]
        ensures { result.now ≡ self.now.chains }
    {
        &self.chains
    }

    /// A role for each piece of each chain of each entry, in order.
    pub fn roles(&self) -> &[Role]
        ensures roles { result.now ≡ self.now.roles }
        ensures whole { IsWhole self.now }
    {
        &self.roles
    }

    /// The literals that roles name, each once, in the order of their first roles.
    pub fn literals(&self) -> &[Vec<LitByte>]
        ensures { map literal_bytes result.now ≡ self.now.literals }
    {
        &self.literals
    }

    /// The engines that roles name, one for all equal pieces.
    pub fn engines(&self) -> &[PieceEngine]
        ensures { result.now ≡ self.now.engines }
    {
        &self.engines
    }

    /// The literals and the engines that roles name. All else is given back.
    pub fn into_named(self) -> (Vec<Vec<LitByte>>, Vec<PieceEngine>)
        ensures literals { map literal_bytes result.0.items ≡ self.literals }
        ensures engines { result.1.items ≡ self.engines }
    {
        (self.literals, self.engines)
    }
}
