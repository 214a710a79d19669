// The tables of a progress: one record for each task.

ghost use Rattle.std.specs.Prelude.{◌≡◌, ◌<◌, ◌+◌, ◌^◌, length, Some, None, true};
ghost use Rattle.control_script.specs.progress.TaskRecords.{member_at, open_server, met, parted, shut};

/// A task. A closed acceptor serves nobody, so a server that is closed counts as none, and of a closed task `depth` and what hangs on it count as nothing.
#[derive(Clone, Copy)]
pub struct Member {
    /// It has completed, or is abnormal.
    pub closed: bool,
    /// The acceptor in the rendezvous in which it is the caller.
    pub server: Option<u32>,
    /// How many callers it has.
    pub depth: u32,
    /// Its innermost caller, where it has one.
    pub innermost: u32,
    /// As a caller: the one around it, where its acceptor has a further one.
    pub outer: u32,
}

/// Whether the task is closed; a number that no task has counts as closed.
pub fn is_closed(members: &[Member], t: u32) -> bool
    ensures { result ≡ (member_at members.now t).closed }
{
    match members.get(t as usize) {
        Some(member) => member.closed,
        None => true,
    }
}

/// The acceptor that serves the task.
pub fn server(members: &[Member], t: u32) -> Option<u32>
    ensures { result ≡ open_server members.now (member_at members.now t).server }
{
    match members.get(t as usize) {
        Some(member) => match member.server {
            Some(a) => { if is_closed(members, a) { None } else { Some(a) } }
            None => None,
        },
        None => None,
    }
}

/// How many callers the task has.
pub fn depth(members: &[Member], t: u32) -> u32
    ensures { result ≡ (member_at members.now t).depth }
{
    match members.get(t as usize) {
        Some(member) => member.depth,
        None => 0,
    }
}

/// The innermost caller of the task, where it has one.
pub fn innermost(members: &[Member], t: u32) -> u32
    ensures { result ≡ (member_at members.now t).innermost }
{
    match members.get(t as usize) {
        Some(member) => member.innermost,
        None => 0,
    }
}

/// A rendezvous of the caller with the acceptor starts.
pub fn meet(members: &mut [Member], c: u32, a: u32)
    requires caller { c < length members.old }
    requires acceptor { a < length members.old }
    requires room { (member_at members.old a).depth + 1 < 2 ^ 32 }
    ensures { members.new ≡ met members.old c a }
{
    let acceptor = &mut members[a as usize];
    let outer = acceptor.innermost;
    acceptor.innermost = c;
    acceptor.depth += 1;
    let caller = &mut members[c as usize];
    caller.server = Some(a);
    caller.outer = outer;
}

/// The innermost rendezvous of the acceptor ends.
pub fn part(members: &mut [Member], a: u32)
    requires acceptor { a < length members.old }
    requires has_caller { 0 < (member_at members.old a).depth }
    requires caller { (member_at members.old a).innermost < length members.old }
    ensures { members.new ≡ parted members.old a }
{
    let c = members[a as usize].innermost;
    let outer = members[c as usize].outer;
    let acceptor = &mut members[a as usize];
    acceptor.innermost = outer;
    acceptor.depth -= 1;
    let caller = &mut members[c as usize];
    caller.server = None;
}

/// The task closes.
pub fn close(members: &mut [Member], x: u32)
    requires { x < length members.old }
    ensures { members.new ≡ shut members.old x }
{
    let member = &mut members[x as usize];
    member.closed = true;
}
