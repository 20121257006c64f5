ghost use Rattle.std.specs.Prelude.{◌≡◌, IfOk};
ghost use Rattle.tick_law.specs.PlanView.{PlanView};
ghost use Rattle.part_kind.specs.declared.part.Part.{Part};
ghost use Rattle.part_kind.specs.declared.link_kind.LinkKind.{LinkKind};
ghost use Rattle.world_query.specs.Directory.{IsDirectoryOf};
ghost use Rattle.world_query.specs.Legend.{legend_of, IsQueryOf};
ghost use Rattle.plan_show.specs.Question.{part_asked, field_asked, asked};

use sim_base::Body;
use world_query::{Directory, Query};

/// What is asked about a machine, with names as they are written.
#[derive(Drop)]
pub enum Question {
    Now,
    Parts,
    Part(Body),
    Field(Body, Body),
    Buffers,
    Progress,
    Stuck,
}

/// Which name of a question its machine does not have.
#[derive(Clone, Copy, Debug, PartialEq, Eq)]
pub enum Unknown {
    Part,
    Field,
}

/// The query about a part of this name, or of one of its fields.
fn part_query(directory: &Directory, part: &[u8]) -> Result<Query, Unknown>
    ensures { result ≡ part_asked directory.now part.now }
{
    match directory.part(part) {
        Some(no) => Ok(Query::Part(no)),
        None => Err(Unknown::Part),
    }
}

fn field_query(directory: &Directory, part: &[u8], field: &[u8]) -> Result<Query, Unknown>
    ensures { result ≡ field_asked directory.now part.now field.now }
{
    let Some(part) = directory.part(part) else {
        return Err(Unknown::Part);
    };
    match directory.field(part, field) {
        Some(field) => Ok(Query::Field(part, field)),
        None => Err(Unknown::Field),
    }
}

/// The query that a question is, or the first name that is unknown.
pub fn query_of(directory: &Directory, question: &Question) -> Result<Query, Unknown>
    ensures query { result ≡ asked directory.now question.now }
    ensures within { (plan : PlanView Part LinkKind) → IsDirectoryOf plan directory.now
        → IfOk result (IsQueryOf (legend_of plan)) }
{
    match question {
        Question::Now => Ok(Query::Now),
        Question::Parts => Ok(Query::Parts),
        Question::Part(part) => part_query(directory, part.items()),
        Question::Field(part, field) => field_query(directory, part.items(), field.items()),
        Question::Buffers => Ok(Query::Buffers),
        Question::Progress => Ok(Query::Progress),
        Question::Stuck => Ok(Query::Stuck),
    }
}
