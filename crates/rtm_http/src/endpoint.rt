ghost use Rattle.std.specs.Prelude.{◌≡◌, ◌++◌, ℕ, List, length, codes};
ghost use Rattle.rtm_http.specs.Route.{Target, to_field, path_text, Leads, IsCall, IsNameRead, IsSegment, IsAnswer};
ghost use Rattle.rtm_http.specs.Table.{endpoint_of, endpoint_method};

use crate::call::{Call, Routed};
use crate::method::Method;
use crate::text::segment_length;
use crate::wait::wait_for;
use sim_base::Name;

/// How many bytes stand in front of the first parameter of a path: `/part/`, `/wait/` or `/tick/`.
const PARAMETER: usize = 6;

/// How many bytes stand between the two parameters of a path: `/field/`.
const BETWEEN: usize = 7;

/// What the paths of the table lead to.
#[derive(Clone, Copy)]
pub(crate) enum Endpoint {
    Now,
    Parts,
    Part,
    Field,
    Buffers,
    Progress,
    Stuck,
    Wait,
    Pause,
    Continue,
    Tick,
    Leave,
}

/// The bytes from this place on, or none where there are not so many.
fn behind(path: &[u8], place: usize) -> &[u8]
    ensures { (front text : List ℕ) → length front ≡ place → path.now ≡ front ++ text → result.now ≡ text }
{
    path.get(place..).unwrap_or_default()
}

/// The name that a segment is, or None where it has not the shape of one.
fn read_name(segment: &[u8]) -> Option<Name>
    ensures { IsNameRead segment.now result }
{
    Name::read(segment)
}

/// The part and the field that a path to a field names.
fn read_field(path: &[u8]) -> Routed
    ensures { (name word : List ℕ) → IsSegment name → path.now ≡ path_text (to_field name word) →
        IsCall (to_field name word) result }
{
    let names = behind(path, PARAMETER);
    let length = segment_length(names);
    let part = read_name(&names[..length]);
    let field = read_name(behind(names, length + BETWEEN));
    Routed::Call(Call::Field(part, field))
}

impl Endpoint {
    /// The one method that the endpoint takes.
    pub(crate) fn method(self) -> Method
        ensures { result ≡ endpoint_method self }
    {
        match self {
            Endpoint::Pause | Endpoint::Continue | Endpoint::Tick | Endpoint::Leave => Method::Post,
            _ => Method::Get,
        }
    }

    /// What a request of the right method asks for, by a path that leads here.
    pub(crate) fn asked(self, path: &[u8]) -> Routed
        ensures { (target : Target) → endpoint_of target ≡ self → Leads path.now target → IsCall target result }
    {
        let parameter = behind(path, PARAMETER);
        match self {
            Endpoint::Now => Routed::Call(Call::Now),
            Endpoint::Parts => Routed::Call(Call::Parts),
            Endpoint::Part => Routed::Call(Call::Part(read_name(parameter))),
            Endpoint::Field => read_field(path),
            Endpoint::Buffers => Routed::Call(Call::Buffers),
            Endpoint::Progress => Routed::Call(Call::Progress),
            Endpoint::Stuck => Routed::Call(Call::Stuck),
            Endpoint::Wait => wait_for(parameter),
            Endpoint::Pause => Routed::Call(Call::Pause),
            Endpoint::Continue => Routed::Call(Call::Continue),
            Endpoint::Tick => Routed::Call(Call::Tick(read_name(parameter))),
            Endpoint::Leave => Routed::Call(Call::Leave),
        }
    }

    /// What a request is answered whose path leads here.
    pub(crate) fn answer(self, method: &[u8], path: &[u8]) -> Routed
        ensures { (target : Target) → endpoint_of target ≡ self → Leads path.now target → IsAnswer method.now target result }
    {
        let allow = self.method();
        if method == allow.word().as_bytes() {
            self.asked(path)
        } else {
            Routed::WrongMethod { allow }
        }
    }
}
