//! The bodies of a design, in the order of its text.
ghost use Rattle.std.specs.Prelude.{◌≡◌, ◌++◌, [], flat_map, IfOk, OnOk};
ghost use Rattle.check_rules.specs.Scopes.{module_in, modules_of, statement_in, implement_in};
ghost use Rattle.design_scopes.specs.Bodies.{referred, IsBody, AreBodies, AreModuleBodies};

use crate::body::Body;
use design_tree::{Declaration, Module, Name, Statement, Top, TopItem};
use esi_base::{List, NoMemory};
use std::alloc::Global;

/// The bodies of a design, in the order of its text: those of its modules, then the top's.
#[tactic(auto, using(crate::proofs::BodyLists::bodies_are))]
pub fn bodies_of<'a>(
    alloc: Global,
    declarations: &'a [Declaration],
    top: &'a Top,
) -> Result<List<Body<'a>>, NoMemory>
    ensures { IfOk result (AreBodies declarations.now top.now) }
{
    let modules = modules_among(alloc, declarations)?;
    let mut bodies = List::new(alloc);
    add_modules(alloc, &mut bodies, modules.as_slice())?;
    bodies.add(top_body(alloc, modules.len(), top)?)?;
    Ok(bodies)
}

/// The modules among some declarations.
fn modules_among<'a>(
    alloc: Global,
    declarations: &'a [Declaration],
) -> Result<List<&'a Module>, NoMemory>
    ensures { IfOk result (λ modules. referred modules ≡ modules_of declarations.now) }
{
    let mut modules = List::new(alloc);
    for declaration in declarations {
        add_if_module(&mut modules, declaration)?;
    }
    Ok(modules)
}

/// Adds the declaration, if it is a module.
fn add_if_module<'a>(
    modules: &mut List<&'a Module>,
    declaration: &'a Declaration,
) -> Result<(), NoMemory>
    ensures { OnOk result (referred modules.new ≡ referred modules.old ++ module_in declaration.now) }
{
    match declaration {
        Declaration::Bundle(_) | Declaration::Service(_) => Ok(()),
        Declaration::Module(module) => modules.add(module),
    }
}

/// Adds the bodies of modules, each with those before it.
fn add_modules<'a>(
    alloc: Global,
    bodies: &mut List<Body<'a>>,
    modules: &[&'a Module],
) -> Result<(), NoMemory>
    requires { bodies.old ≡ [] }
    ensures { OnOk result (AreModuleBodies 0 (referred modules.now) bodies.new) }
{
    for before in 0..modules.len() {
        bodies.add(module_body(alloc, before, modules[before])?)?;
    }
    Ok(())
}

/// The body of a module.
fn module_body<'a>(alloc: Global, before: usize, source: &'a Module) -> Result<Body<'a>, NoMemory>
    ensures { IfOk result (IsBody before source.now.ports source.now.body []) }
{
    let mut statements = List::new(alloc);
    for statement in source.body.as_slice() {
        statements.add(statement)?;
    }
    Ok(Body {
        before,
        ports: source.ports.as_slice(),
        statements,
        implements: List::new(alloc),
    })
}

/// The body of the top.
fn top_body<'a>(alloc: Global, before: usize, top: &'a Top) -> Result<Body<'a>, NoMemory>
    ensures { IfOk result (IsBody before [] (flat_map statement_in top.now.body) (flat_map implement_in top.now.body)) }
{
    let mut statements = List::new(alloc);
    let mut implements = List::new(alloc);
    for item in top.body.as_slice() {
        add_item(&mut statements, &mut implements, item)?;
    }
    Ok(Body {
        before,
        ports: &[],
        statements,
        implements,
    })
}

/// Adds an item of the top.
fn add_item<'a>(
    statements: &mut List<&'a Statement>,
    implements: &mut List<&'a Name>,
    item: &'a TopItem,
) -> Result<(), NoMemory>
    ensures statements { OnOk result (referred statements.new ≡ referred statements.old ++ statement_in item.now) }
    ensures implements { OnOk result (referred implements.new ≡ referred implements.old ++ implement_in item.now) }
{
    match item {
        TopItem::Statement(statement) => statements.add(statement),
        TopItem::Implement(service) => implements.add(service),
    }
}
