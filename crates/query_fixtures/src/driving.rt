//! Results of MiniJava's queries in profile 1, evaluated by a driver.
ghost use Rattle.std.specs.Prelude.{◌≡◌, IsTrue, IfOk, All};
ghost use Rattle.result_bytes.specs.Values.{canon};
ghost use Rattle.profiles.specs.declared.profile.Profile.TheVariants.{One};
ghost use Rattle.query_rules.specs.Meaning.{mean};
ghost use Rattle.answer_fixtures.specs.Telling.{Tell, one_file};
ghost use Rattle.query_fixtures.specs.Rows.{Means, IsAnswerTold};

use crate::driver::Driver;
use crate::rows::Row;
use answer_fixtures::{Unfit, is_spelled, key_of, project_of};
use item_ids::Key;
use named_files::Project;
use project_inputs::Inputs;
use providers::MiniJava;
use run_fixtures::Given;
use std::alloc::Global;

/// A driver of the queries of the project.
fn driver_over(alloc: Global, project: &Project) -> Result<Driver<MiniJava>, Unfit>
    ensures { IfOk result (λ driver. driver ≡ project.now) }
{
    let inputs = Inputs::new(alloc, &None, project)?;
    Ok(Driver::new(alloc, inputs, MiniJava::new(alloc)))
}

/// A driver of the queries of the project of one file.
fn driver_of(alloc: Global, text: &str) -> Result<Driver<MiniJava>, Unfit>
    ensures { IfOk result (λ driver. driver ≡ one_file text.now) }
{
    let project = project_of(alloc, text)?;
    driver_over(alloc, &project)
}

/// Whether the driver evaluates the key to the result that these digits spell.
fn comes_to(
    alloc: Global,
    driver: &mut Driver<MiniJava>,
    key: &Key,
    digits: &str,
) -> Result<bool, Unfit>
    ensures told { IfOk result (λ b. IsTrue b
        → Tell digits.now (canon (mean One driver.old key.now))) }
    ensures same { driver.new ≡ driver.old }
{
    match driver.result(key) {
        Ok(sealed) => is_spelled(alloc, &sealed, digits),
        Err(_) => Err(Unfit),
    }
}

/// Whether the driver evaluates the key that is given to its result.
fn brings(alloc: Global, driver: &mut Driver<MiniJava>, wanted: Given) -> Result<bool, Unfit>
    ensures told { IfOk result (λ b. IsTrue b → Means One driver.old wanted.entry) }
    ensures same { driver.new ≡ driver.old }
{
    let key = key_of(alloc, wanted.0)?;
    comes_to(alloc, driver, &key, wanted.1)
}

/// Whether the driver evaluates each case's query to its value.
fn brings_all(alloc: Global, driver: &mut Driver<MiniJava>, rows: &[Row]) -> Result<bool, Unfit>
    ensures { IfOk result (λ b. IsTrue b
        → All (λ row. Means One driver.old row.query) rows.now) }
{
    for row in rows {
        if !brings(alloc, driver, row.query)? {
            return Ok(false);
        }
    }
    Ok(true)
}

/// Whether one driver of the project of one file, `M.java` with this text, evaluates each case's query to its value.
pub fn brings_each(alloc: Global, text: &str, rows: &[Row]) -> Result<bool, Unfit>
    ensures { IfOk result (λ b. IsTrue b
        → All (λ row. Means One (one_file text.now) row.query) rows.now) }
{
    let mut driver = driver_of(alloc, text)?;
    brings_all(alloc, &mut driver, rows)
}

/// Whether a driver of the project of one file, `M.java` with this text, evaluates Answer to the result that these
/// digits spell.
pub fn is_answer(alloc: Global, text: &str, digits: &str) -> Result<bool, Unfit>
    ensures { IfOk result (λ b. IsTrue b → IsAnswerTold One (one_file text.now) digits.now) }
{
    let mut driver = driver_of(alloc, text)?;
    comes_to(alloc, &mut driver, &Key::Answer, digits)
}
