ghost use Rattle.std.specs.Prelude.{◌≡◌, ◌≤◌, ◌++◌, length, OnOk};
ghost use Rattle.state_view.specs.Report.{has_tasks, task_numbers, task_times, task_line, task_line_if, task_lines};

use crate::text::Text;
use part_kind::Part;
use sim_base::{Name, OutOfMemory, PartNo};
use task_stats::{Stats, TaskCount};

/// Whether a part sends requests.
fn has_tasks(part: &Part) -> bool
    ensures { result ≡ has_tasks part.now }
{
    match part {
        Part::Agent(_) | Part::Core(_) | Part::Cache(_) => true,
        Part::Relay(_) | Part::Memory(_) => false,
    }
}

fn put_numbers(text: &mut Text, count: TaskCount) -> Result<(), OutOfMemory>
    ensures { OnOk result (text.new ≡ text.old ++ task_numbers count) }
{
    text.put(b" begun ")?;
    text.number(count.begun)?;
    text.put(b" ended ")?;
    text.number(count.ended)
}

fn put_times(text: &mut Text, count: TaskCount) -> Result<(), OutOfMemory>
    ensures { OnOk result (text.new ≡ text.old ++ task_times count) }
{
    text.put(b" sum ")?;
    text.big_number(count.sum)?;
    text.put(b" greatest ")?;
    text.number(count.greatest)?;
    text.put(b"\n")
}

fn put_task(text: &mut Text, name: &Name, count: TaskCount) -> Result<(), OutOfMemory>
    ensures { OnOk result (text.new ≡ text.old ++ task_line name.now count) }
{
    text.put(b"task ")?;
    text.put(name.text())?;
    put_numbers(text, count)?;
    put_times(text, count)
}

/// The line of a part's tasks, if it has one.
fn put_task_if(
    text: &mut Text,
    name: &Name,
    part: &Part,
    count: TaskCount,
) -> Result<(), OutOfMemory>
    ensures { OnOk result (text.new ≡ text.old ++ task_line_if (has_tasks part.now) name.now count) }
{
    if has_tasks(part) {
        return put_task(text, name, count);
    }
    Ok(())
}

/// A line for each part that sends requests.
pub fn put_tasks(
    text: &mut Text,
    names: &[Name],
    parts: &[Part],
    stats: &Stats,
) -> Result<(), OutOfMemory>
    requires few { length parts.now ≤ 256 }
    requires names { length names.now ≡ length parts.now }
    requires counts { length stats.now ≡ length parts.now }

    ensures { OnOk result (text.new ≡ text.old ++ task_lines names.now parts.now stats.now) }
{
    for no in 0..parts.len() {
        let count = stats.of(PartNo(no as u32));
        put_task_if(text, &names[no], &parts[no], count)?;
    }
    Ok(())
}
