//! Whether the top of a design exceeds the limits on its size and on its endpoints.
ghost use Rattle.std.specs.Prelude.{◌≡◌, IfOk};
ghost use Rattle.name_tables.specs.FirstPlaces.{Reports};
ghost use Rattle.check_rules.specs.Totals.{top_total, Exceeds};
ghost use Rattle.design_scopes.specs.Bodies.{DesignText, text_of};
ghost use Rattle.design_scopes.specs.Resolving.{AreTables};

use crate::bodies::{last_totals, module_table};
use crate::capped::CappedTotals;
use check_rules::{LARGEST_DESIGN, MAX_ENDPOINTS};
use design_scopes::body::Body;
use design_scopes::declared::Declared;
use design_tree::{Declaration, Top};
use esi_base::NoMemory;
use std::alloc::Global;
use std::marker::Model;

/// How large a design's top is and how many endpoints it has. Contracts see the declarations and the top.
#[derive(Drop)]
pub struct DesignTotals<'a> {
    declarations: &'a [Declaration],
    top: &'a Top,
    totals: CappedTotals,
}

impl<'a> Model for DesignTotals<'a> {
    ghost use Rattle.std.specs.Prelude.{◌≡◌};
    ghost use Rattle.check_rules.specs.Totals.{top_total};
    ghost use Rattle.design_scopes.specs.Bodies.{DesignText, text_of};
    ghost use Rattle.design_totals.specs.Capped.{capped_totals};
    ghost use Rattle.channel_types.specs.contracts.esi_type.EsiType as ty;
    ghost use Rattle.design_tree.specs.contracts.expression.Expression as expression;
    ghost use Rattle.std.specs.Coded.{codes};

    ghost Value = { DesignText };

    ghost coded = { Prim.hlevel (codes, ty.the_row.coded, expression.the_row.coded) };

    ghost view = { λ t. text_of t.declarations.now t.top.now };

    ghost invariant = { λ t. t.totals ≡ capped_totals (top_total t.declarations.now t.top.now) };
}

impl<'a> DesignTotals<'a> {
    /// The totals of a design, whose declarations are found by name in `declared`, and whose bodies are
    /// these. It takes time in n log n where each member of a request is used (rule 304).
    #[tactic(auto, using(crate::proofs::DesignLaws::top_law))]
    pub fn of(
        alloc: Global,
        declarations: &'a [Declaration],
        top: &'a Top,
        declared: &Declared<'a>,
        bodies: &[Body<'a>],
    ) -> Result<DesignTotals<'a>, NoMemory>
        requires { AreTables declarations.now top.now declared.now bodies.now }
        ensures { IfOk result (λ totals. totals ≡ text_of declarations.now top.now) }
    {
        let modules = module_table(alloc, declarations)?;
        let totals = last_totals(alloc, declared, &modules, bodies)?;
        Ok(DesignTotals {
            declarations,
            top,
            totals,
        })
    }

    /// The top's name, if the top is larger than the greatest size.
    pub fn first_too_large(&self) -> Option<usize>
        ensures { Reports (Exceeds LARGEST_DESIGN (top_total self.now.declarations self.now.top).size self.now.top) result }
    {
        exceeding(LARGEST_DESIGN, self.totals.size, self.top)
    }

    /// The top's name, if the top has more endpoints to the server than may be.
    pub fn first_too_many_to_server(&self) -> Option<usize>
        ensures { Reports (Exceeds MAX_ENDPOINTS (top_total self.now.declarations self.now.top).to_server self.now.top) result }
    {
        exceeding(MAX_ENDPOINTS, self.totals.to_server, self.top)
    }

    /// The top's name, if the top has more endpoints to the client than may be.
    pub fn first_too_many_to_client(&self) -> Option<usize>
        ensures { Reports (Exceeds MAX_ENDPOINTS (top_total self.now.declarations self.now.top).to_client self.now.top) result }
    {
        exceeding(MAX_ENDPOINTS, self.totals.to_client, self.top)
    }
}

/// The top's name, if a count exceeds its limit.
fn exceeding(limit: usize, count: usize, top: &Top) -> Option<usize>
    ensures { Reports (Exceeds limit count top.now) result }
{
    if limit < count {
        Some(top.name.at)
    } else {
        None
    }
}
