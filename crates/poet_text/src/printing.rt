//! The texts of a judgement, and what other texts share with them.
ghost use Rattle.std.specs.Prelude.{◌≡◌, ◌++◌, OnOk, IfOk};
ghost use Rattle.task_sheet.specs.Sheets.{task_at};
ghost use Rattle.poet_text.specs.Printing.{counted, named, task_line, cond_text as cond_text_of, task_text, refused_text, part_text as part_text_of, no_bound_text, no_order_text};

use conditions::{Cond, Failed};
use lists::Items;
use poet_io::push_number;
use solver::Part;
use std::alloc::{AllocError, Global};
use task_sheet::{Sheet, Task};

/// Appends a word and a number.
pub fn push_counted(out: &mut Vec<u8>, word: &str, n: u64) -> Result<(), AllocError>
    ensures { OnOk result (out.new.items ≡ out.old.items ++ counted word.now n) }
{
    out.extend_from_slice(word.as_bytes())?;
    push_number(out, n)
}

/// Appends two words, each with a number.
pub fn push_two(
    out: &mut Vec<u8>,
    first: &str,
    m: u64,
    second: &str,
    n: u64,
) -> Result<(), AllocError>
    ensures { OnOk result
        (out.new.items ≡ out.old.items ++ (counted first.now m ++ counted second.now n)) }
{
    push_counted(out, first, m)?;
    push_counted(out, second, n)
}

/// Appends the line of a task: its name, and two words, each with a number.
#[tactic(auto, unfolding(crate::specs::Printing::task_line))]
pub fn push_task_line(
    out: &mut Vec<u8>,
    task: &Task,
    first: &str,
    m: u64,
    second: &str,
    n: u64,
) -> Result<(), AllocError>
    ensures { OnOk result
        (out.new.items ≡ out.old.items ++ task_line task.now first.now m second.now n) }
{
    out.extend_from_slice("task ".as_bytes())?;
    out.extend_from_slice(task.name.as_str().as_bytes())?;
    push_two(out, first, m, second, n)?;
    out.extend_from_slice("\n".as_bytes())
}

/// Appends a word and a number, where there is one.
pub fn push_named(out: &mut Vec<u8>, word: &str, n: Option<u64>) -> Result<(), AllocError>
    ensures { OnOk result (out.new.items ≡ out.old.items ++ named word.now n) }
{
    match n {
        Some(n) => push_counted(out, word, n),
        None => Ok(()),
    }
}

/// The words of a refused condition.
pub fn cond_text(cond: Cond) -> &'static str
    ensures { result.now ≡ cond_text_of cond }
{
    match cond {
        Cond::K1 => "refused K1",
        Cond::K2 => "refused K2",
        Cond::K3 => "refused K3",
        Cond::K4 => "refused K4",
        Cond::K5 => "refused K5",
        Cond::K6 => "refused K6",
        Cond::K7 => "refused K7",
        Cond::K8 => "refused K8",
        Cond::K9 => "refused K9",
        Cond::K10 => "refused K10",
    }
}

/// A task's name, or nothing past the last task.
#[tactic(auto, unfolding(task_sheet::specs::Sheets::no_task))]
pub fn name_at(sheet: &Sheet, i: u32) -> &str
    ensures { result.now ≡ (task_at sheet.now i).name }
{
    if i < sheet.len() {
        sheet.task(i).name.as_str()
    } else {
        ""
    }
}

/// Appends a task's name, where there is one.
fn push_task(out: &mut Vec<u8>, sheet: &Sheet, task: Option<u32>) -> Result<(), AllocError>
    ensures { OnOk result (out.new.items ≡ out.old.items ++ task_text sheet.now task) }
{
    match task {
        Some(i) => {
            out.extend_from_slice(" task ".as_bytes())?;
            out.extend_from_slice(name_at(sheet, i).as_bytes())
        }
        None => Ok(()),
    }
}

/// Which condition failed, and where.
#[tactic(auto, unfolding(crate::specs::Printing::refused_text))]
pub fn refused(alloc: Global, sheet: &Sheet, failed: &Failed) -> Result<Items<u8>, AllocError>
    ensures { IfOk result (λ text. text ≡ refused_text sheet.now failed.now) }
{
    let mut text = Vec::from_slice(alloc, cond_text(failed.cond).as_bytes())?;
    push_task(&mut text, sheet, failed.task)?;
    push_named(&mut text, " point ", failed.point)?;
    text.extend_from_slice("\n".as_bytes())?;
    Ok(Items::new(text))
}

fn part_text(part: Part) -> &'static str
    ensures { result.now ≡ part_text_of part }
{
    match part {
        Part::Window => " window\n",
        Part::Bound => " bound\n",
    }
}

/// That a task has no bound, for want of this part.
pub fn no_bound(
    alloc: Global,
    sheet: &Sheet,
    task: u32,
    part: Part,
) -> Result<Items<u8>, AllocError>
    ensures { IfOk result (λ text. text ≡ no_bound_text (task_at sheet.now task).name part) }
{
    let mut text = Vec::from_slice(alloc, "no bound task ".as_bytes())?;
    text.extend_from_slice(name_at(sheet, task).as_bytes())?;
    text.extend_from_slice(part_text(part).as_bytes())?;
    Ok(Items::new(text))
}

/// That no task may take this level.
#[tactic(auto, unfolding(crate::specs::Printing::no_order_text))]
pub fn no_order(alloc: Global, level: u32) -> Result<Items<u8>, AllocError>
    ensures { IfOk result (λ text. text ≡ no_order_text level) }
{
    let mut text = Vec::new(alloc);
    push_counted(&mut text, "no order at level ", u64::from(level))?;
    text.extend_from_slice("\n".as_bytes())?;
    Ok(Items::new(text))
}
