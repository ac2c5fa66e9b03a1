//! The job of what is loaded of a library and of a text.
ghost use Rattle.std.specs.Prelude.{◌≡◌, ◌++◌, ◌||◌, false, IfOk, OnOk, map, fold};
ghost use Rattle.std.specs.Arc.{arc_value};
ghost use Rattle.au_model.specs.Terms.Each.{Each};
ghost use Rattle.run_model.specs.Programs.Clauses.{is_clause_of};
ghost use Rattle.run_model.specs.Programs.DatabaseChanges.{declared_in, with_last_clause};
ghost use Rattle.dyn_clauses.specs.declared.indicator.Indicator.{Indicator as IndicatorTerms};
ghost use Rattle.dyn_clauses.specs.DatabaseView.{is_static};
ghost use Rattle.dyn_clauses.specs.ClauseEnds.{indicator_of};
ghost use Rattle.text_load.specs.JobView.{AreStatics};
ghost use Rattle.text_load.specs.LoadingView.{AreByDeclaration};
ghost use Rattle.text_load.specs.LoadedTexts.{clauses_beside, database_of, job_of, procedures_beside};

use crate::job::Job;
use crate::loading::Loading;
use crate::query::Query;
use au_term::NoMemory;
use clause_compile::Clause;
use dyn_clauses::{DataRefusal, Database, Indicator};
use op_table::Ops;
use std::alloc::Global;
use std::sync::Arc;

/// The job of a library and a text. A procedure that the text defines is the text's alone.
pub(crate) fn job_from(alloc: Global, library: Loading, text: Loading) -> Result<Job, NoMemory>
    ensures { IfOk result (λ job. job ≡ job_of library text) }
{
    let (clauses, database) = program_of(alloc, &library, &text)?;
    let (ops, queries) = rest_of(library, text)?;
    Ok(Job::new(clauses, database, ops, queries))
}

/// The clauses of the static procedures, and the dynamic procedures.
fn program_of(
    alloc: Global,
    library: &Loading,
    text: &Loading,
) -> Result<(Vec<Arc<Clause>>, Database), NoMemory>
    ensures clauses { IfOk result (λ r. map arc_value r.0.items ≡ (job_of library.now text.now).clauses) }
    ensures database { IfOk result (λ r. r.1.kept ≡ (job_of library.now text.now).database) }
    ensures statics { IfOk result (λ r. AreStatics r.1.statics (map arc_value r.0.items)) }
{
    let clauses = clauses_of(alloc, library, text)?;
    let database = database_of(alloc, &clauses, library, text)?;
    Ok((clauses, database))
}

/// The operators of a text, and a library's queries before its own.
fn rest_of(library: Loading, text: Loading) -> Result<(Ops, Vec<Query>), NoMemory>
    ensures ops { IfOk result (λ r. r.0 ≡ text.setting.ops) }
    ensures queries { IfOk result (λ r. r.1.items ≡ library.queries ++ text.queries) }
{
    let (_, mut queries) = ops_and_queries(library);
    let (ops, mut own) = ops_and_queries(text);
    queries.append(&mut own)?;
    Ok((ops, queries))
}

fn ops_and_queries(loading: Loading) -> (Ops, Vec<Query>)
    ensures ops { result.0 ≡ loading.setting.ops }
    ensures queries { result.1.items ≡ loading.queries }
{
    (loading.ops, loading.queries)
}

/// The static clauses of a library beside a text, and those of the text.
fn clauses_of(
    alloc: Global,
    library: &Loading,
    text: &Loading,
) -> Result<Vec<Arc<Clause>>, NoMemory>
    ensures { IfOk result (λ clauses. map arc_value clauses.items ≡ clauses_beside text.now library.now.statics ++ text.now.statics) }
{
    let mut clauses = Vec::new(alloc);
    push_beside(library.statics.clauses(), text, &mut clauses)?;
    push_all(text.statics.clauses(), &mut clauses)?;
    Ok(clauses)
}

/// Puts the clauses of procedures that a text does not define after those that are there.
fn push_beside(
    library: &[Arc<Clause>],
    text: &Loading,
    clauses: &mut Vec<Arc<Clause>>,
) -> Result<(), NoMemory>
    ensures { OnOk result (map arc_value clauses.new.items ≡ map arc_value clauses.old.items ++ clauses_beside text.now (map arc_value library.now)) }
{
    for clause in library {
        if !text.defines_that_of(clause)? {
            clauses.push(clause.clone()?)?;
        }
    }
    Ok(())
}

/// Puts clauses after those that are there.
fn push_all(more: &[Arc<Clause>], clauses: &mut Vec<Arc<Clause>>) -> Result<(), NoMemory>
    ensures { OnOk result (map arc_value clauses.new.items ≡ map arc_value clauses.old.items ++ map arc_value more.now) }
{
    for clause in more {
        clauses.push(clause.clone()?)?;
    }
    Ok(())
}

/// The dynamic clauses of a library beside a text, and those of the text.
fn dynamic_clauses_of(
    alloc: Global,
    library: &Loading,
    text: &Loading,
) -> Result<Vec<Arc<Clause>>, NoMemory>
    ensures { IfOk result (λ clauses. map arc_value clauses.items ≡ clauses_beside text.now library.now.dynamics ++ text.now.dynamics) }
{
    let mut clauses = Vec::new(alloc);
    push_beside(&library.dynamics, text, &mut clauses)?;
    push_all(&text.dynamics, &mut clauses)?;
    Ok(clauses)
}

/// The dynamic procedures of a library beside a text, and those of the text.
fn procedures_of(
    alloc: Global,
    library: &Loading,
    text: &Loading,
) -> Result<Vec<Indicator>, NoMemory>
    ensures procedures { IfOk result (λ procedures. procedures.items ≡ procedures_beside text.now library.now.declared ++ text.now.declared) }
    ensures library { IfOk result (λ procedures. AreByDeclaration library.now.declared library.now.statics library.now.dynamics) }
    ensures text { IfOk result (λ procedures. AreByDeclaration text.now.declared text.now.statics text.now.dynamics) }
{
    let mut procedures = Vec::new(alloc);
    push_procedures_beside(library.declared_procedures(), text, &mut procedures)?;
    push_procedures(text.declared_procedures(), &mut procedures)?;
    Ok(procedures)
}

/// Puts the procedures that a text does not define after those that are there.
fn push_procedures_beside(
    library: &[Indicator],
    text: &Loading,
    procedures: &mut Vec<Indicator>,
) -> Result<(), NoMemory>
    ensures { OnOk result (procedures.new.items ≡ procedures.old.items ++ procedures_beside text.now library.now) }
{
    for procedure in library {
        if !text.defines(procedure) {
            procedures.push(procedure.share()?)?;
        }
    }
    Ok(())
}

/// Puts procedures after those that are there.
fn push_procedures(more: &[Indicator], procedures: &mut Vec<Indicator>) -> Result<(), NoMemory>
    ensures { OnOk result (procedures.new.items ≡ procedures.old.items ++ more.now) }
{
    for procedure in more {
        procedures.push(procedure.share()?)?;
    }
    Ok(())
}

/// The database of a library and a text, beside the procedures of static clauses.
fn database_of(
    alloc: Global,
    statics: &[Arc<Clause>],
    library: &Loading,
    text: &Loading,
) -> Result<Database, NoMemory>
    requires { map arc_value statics.now ≡ clauses_beside text.now library.now.statics ++ text.now.statics }
    ensures kept { IfOk result (λ d. d.kept ≡ database_of (procedures_beside text.now library.now.declared ++ text.now.declared) (clauses_beside text.now library.now.dynamics ++ text.now.dynamics)) }
    ensures statics { IfOk result (λ d. AreStatics d.statics (map arc_value statics.now)) }
{
    let mut database = Database::new(alloc, defined_by(alloc, statics)?)?;
    let procedures = procedures_of(alloc, library, text)?;
    declare_all(&procedures, &mut database)?;
    let clauses = dynamic_clauses_of(alloc, library, text)?;
    add_all(&clauses, &mut database)?;
    Ok(database)
}

/// The procedures of clauses.
fn defined_by(alloc: Global, clauses: &[Arc<Clause>]) -> Result<Vec<Indicator>, NoMemory>
    ensures { IfOk result (λ is. AreStatics is.items (map arc_value clauses.now)) }
{
    let mut procedures = Vec::new(alloc);
    for clause in clauses {
        push_procedure(clause, &mut procedures)?;
    }
    Ok(procedures)
}

/// Puts the procedure of a clause after those that are there.
fn push_procedure(clause: &Clause, procedures: &mut Vec<Indicator>) -> Result<(), NoMemory>
    ensures { OnOk result ((i : IndicatorTerms) → is_static procedures.new.items i ≡ (is_static procedures.old.items i || is_clause_of i.name i.arity clause.now)) }
{
    procedures.push(Indicator::of_clause(clause)?)?;
    Ok(())
}

/// Makes procedures dynamic.
fn declare_all(procedures: &[Indicator], database: &mut Database) -> Result<(), NoMemory>
    requires { Each (λ i. is_static database.old.statics i ≡ false) procedures.now }
    ensures kept { OnOk result (database.new.kept ≡ fold (λ db i. declared_in db i.name i.arity) database.old.kept procedures.now) }
    ensures statics { OnOk result (database.new.statics ≡ database.old.statics) }
{
    for procedure in procedures {
        match database.declare(procedure) {
            Ok(()) => {}
            Err(DataRefusal::NoMemory) => return Err(NoMemory),
            Err(DataRefusal::Static) => unreachable!(),
        }
    }
    Ok(())
}

/// Puts clauses of dynamic procedures after those that are there.
fn add_all(clauses: &[Arc<Clause>], database: &mut Database) -> Result<(), NoMemory>
    requires { Each (λ c. is_static database.old.statics (indicator_of c) ≡ false) (map arc_value clauses.now) }
    ensures kept { OnOk result (database.new.kept ≡ fold with_last_clause database.old.kept (map arc_value clauses.now)) }
    ensures statics { OnOk result (database.new.statics ≡ database.old.statics) }
{
    for clause in clauses {
        match database.add_last(clause.clone()?) {
            Ok(_) => {}
            Err(DataRefusal::NoMemory) => return Err(NoMemory),
            Err(DataRefusal::Static) => unreachable!(),
        }
    }
    Ok(())
}
