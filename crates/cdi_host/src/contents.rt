//! What a container holds, as the engine asks and changes it.
use crate::{Invocation, Stack};
use cdi_base::{Entry, Fields, Name, Scope, Seq, Text, Value};
use cdi_contexts::{Held, Status};
use cdi_store::{Component, Context, Instance, Owner, Reference};
use std::alloc::{AllocError, Global};

/// What a container holds: its instances and contexts, and what is under way in the running command. Each change is one of the
/// definition.
pub trait Contents {
    ghost use Rattle.std.specs.Prelude.{◌≡◌, ◌<◌, ◌^◌, ◌↔◌, None, Some, length, option_map, IfOk, IsErr, IsSome, OnOk, OnErr, IsTrue};
    ghost use Rattle.std.specs.Option.{option_copied};
    ghost use Rattle.cdi_contexts.specs.Contexts.{context_at, context_of};
    ghost use Rattle.cdi_contexts.specs.Refusals.{begin_refusal, opens_session};
    ghost use Rattle.cdi_machine.specs.World.{World, after_change, with_entry, instance_at};
    ghost use Rattle.cdi_machine.specs.World.Change.{Make, Settle, Refer, Discard, Leave, Remove, Assign, Mark, Finish, Close, Enter, Provide, Replace, Keep, Hold, Reach, Exit, Start, Stop, Borrow, Return, Down};
    ghost use Rattle.cdi_machine.specs.Commands.{is_used, requests_of, sessions_of};
    ghost use Rattle.cdi_machine.specs.Destruction.{greatest_in};
    ghost use Rattle.cdi_machine.specs.DestroyAct.{is_idle};
    ghost use Rattle.cdi_store.specs.Owned.{dependents_in};
    ghost use Rattle.cdi_host.specs.Asked.{status_in, held_in, number_left, latest_in, top_of};
    ghost use Rattle.cdi_host.specs.Standing.{due_session, has_named_contexts, standing_in, standing_in_session, with_request_begun};

    /// The world of the definition.
    ghost world: { Self → World };

    fn alloc(&self) -> Global;

    // ---- the world, as it is

    /// Whether the command may have one more entry.
    fn has_room(&self) -> bool
        ensures { IsTrue result ↔ (length (world self.now).trace < (world self.now).ticks) };

    /// How many entries the command has.
    fn entries(&self) -> u64
        ensures { length (world self.now).trace ≡ result };

    /// Whether the command may have one more level of bodies.
    fn may_go_deeper(&self) -> bool
        ensures { IsTrue result ↔ (length (world self.now).bodies < (world self.now).depth) };

    /// The number of the next instance, if one is left.
    fn next_number(&self) -> Option<u32>
        ensures { number_left (world self.now) ≡ result };

    /// The live instance with a number.
    fn instance(&self, number: u32) -> Option<&Instance>
        ensures { instance_at (world self.now) number ≡ option_map (λ o. o.now) result };

    /// An instance has at most 4,294,967,295 dependents.
    fn law_few(&self, number: u32)
        ensures { length (dependents_in (instance_at (world self.now) number)) < 2 ^ 32 };

    /// The status of the active context of a scope, if there is one.
    fn status(&self, scope: Scope) -> Option<Status>
        ensures { status_in (world self.now) scope ≡ result };

    /// What the active context of a scope has for a bean.
    fn held(&self, scope: Scope, bean: u32) -> Option<Held>
        ensures { held_in (world self.now) scope bean ≡ result };

    /// The context of a scope in the environment of the command, if it has one; the application is in every environment. Memory
    /// can be wanting for the name of a request or a session.
    fn context(&self, scope: Scope) -> Result<Option<Context>, AllocError>
        ensures found { IfOk result (λ context.
            context_of (world self.now).environment scope ≡ context) }
        ensures memory { IsErr result → IsTrue (has_named_contexts scope) };

    /// The greatest number of an instance that a context has.
    fn last_in(&self, context: &Context) -> Option<u32>
        ensures { greatest_in (context_at (world self.now).contexts context.now) ≡ result };

    /// The session of the command's environment, if it ends: it is marked, and no request that is there belongs to it. Memory can be
    /// wanting for its name.
    fn due_session(&self) -> Result<Option<Context>, AllocError>
        ensures found { IfOk result (λ session. due_session (world self.now) ≡ session) }
        ensures memory { IsErr result → IsSome (world self.now).environment.session };

    /// Whether a request that is there belongs to a session.
    fn is_used(&self, session: &Text) -> bool
        ensures { result ≡ is_used (world self.now).contexts session.now };

    /// The names of the requests that are there, in the order of their begin. Memory can be wanting.
    fn requests(&self) -> Result<Stack<Text>, AllocError>
        ensures { IfOk result (λ names. names ≡ requests_of (world self.now).contexts) };

    /// The names of the sessions that are there, in the order of their creation. Memory can be wanting.
    fn sessions(&self) -> Result<Stack<Text>, AllocError>
        ensures { IfOk result (λ names. names ≡ sessions_of (world self.now).contexts) };

    /// The innermost invocation, if one is under way.
    fn invocation(&self) -> Option<&Invocation>
        ensures { top_of (world self.now).invocations ≡ option_map (λ i. i.now) result };

    /// Whether neither an instance nor what it owns, and whose destruction hasn't begun, is the target of an invocation or has a
    /// running body.
    fn is_idle(&self, number: u32) -> bool
        ensures { result ≡ is_idle (world self.now) number };

    /// The latest of the innermost temporaries, if there are temporaries, and if one is there.
    fn latest_temporary(&self) -> Option<Option<u32>>
        ensures { latest_in (world self.now) ≡ result };

    // ---- the world, changed

    /// Writes an entry. Memory can be wanting; on an error nothing changes.
    fn write(&mut self, entry: Entry) -> Result<(), AllocError>
        ensures ok { OnOk result (world self.new ≡ with_entry entry (world self.old)) }
        ensures err { OnErr result (world self.new ≡ world self.old) };

    /// An instance gets the next number, of which one has to be left. Memory can be wanting; on an error nothing
    /// changes.
    fn make(&mut self, component: Component, owner: Owner, fields: Fields) -> Result<(), AllocError>
        requires { (world self.old).next < 2 ^ 32 }
        ensures ok { OnOk result (world self.new
            ≡ after_change (Make component owner fields) (world self.old)) }
        ensures err { OnErr result (world self.new ≡ world self.old) };

    /// The instance is ready: its context, its owner or the temporaries have it. Memory can be wanting; on an error
    /// nothing changes.
    fn settle(&mut self, number: u32) -> Result<(), AllocError>
        ensures ok { OnOk result (world self.new
            ≡ after_change (Settle number) (world self.old)) }
        ensures err { OnErr result (world self.new ≡ world self.old) };

    /// An injected field of the instance has a reference. Memory can be wanting; on an error nothing changes.
    fn refer(&mut self, number: u32, field: Name, reference: Reference) -> Result<(), AllocError>
        ensures ok { OnOk result (world self.new
            ≡ after_change (Refer number field reference) (world self.old)) }
        ensures err { OnErr result (world self.new ≡ world self.old) };

    /// The creation of the instance has failed: it is gone, and its context has it no longer.
    fn discard(&mut self, number: u32)
        ensures { world self.new ≡ after_change (Discard number) (world self.old) };

    /// The destruction of the instance begins: nothing has it any more.
    fn leave(&mut self, number: u32)
        ensures { world self.new ≡ after_change (Leave number) (world self.old) };

    /// The instance is gone.
    fn remove(&mut self, number: u32)
        ensures { world self.new ≡ after_change (Remove number) (world self.old) };

    /// A field of the instance has another value.
    fn assign(&mut self, number: u32, field: Name, value: Value)
        ensures { world self.new ≡ after_change (Assign number field value) (world self.old) };

    /// A request begins that isn't refused, in its session if it names one, and the command runs in them. A session that isn't there
    /// begins with it; whether it does is told. Memory can be wanting; on an error nothing changes.
    fn begin_request(&mut self, request: Text, session: Option<Text>) -> Result<bool, AllocError>
        requires { begin_refusal (world self.old).contexts request session ≡ None }
        ensures begun { OnOk result (world self.new
            ≡ standing_in (Some request) (with_request_begun request session (world self.old))) }
        ensures opens { IfOk result (λ opens. opens
            ≡ opens_session (world self.old).contexts session) }
        ensures err { OnErr result (world self.new ≡ world self.old) };

    /// A session is marked: it ends with its last request.
    fn mark(&mut self, session: &Text)
        ensures { world self.new ≡ after_change (Mark session.now) (world self.old) };

    /// A context is being destroyed.
    fn finish(&mut self, context: &Context)
        ensures { world self.new ≡ after_change (Finish context.now) (world self.old) };

    /// A context is gone.
    fn close(&mut self, context: &Context)
        ensures { world self.new ≡ after_change (Close context.now) (world self.old) };

    /// The command runs in a request and its session, or in none. Memory can be wanting for the name of the session; on an
    /// error nothing changes.
    fn stand_in(&mut self, request: Option<Text>) -> Result<(), AllocError>
        ensures ok { OnOk result (world self.new ≡ standing_in request (world self.old)) }
        ensures err { OnErr result (world self.new ≡ world self.old) }
        ensures memory { IsErr result → IsSome request };

    /// The command runs in a session alone.
    fn stand_in_session(&mut self, session: Text)
        ensures { world self.new ≡ standing_in_session session (world self.old) };

    /// An invocation begins. Memory can be wanting; on an error nothing changes.
    fn enter(&mut self, invocation: Invocation) -> Result<(), AllocError>
        ensures ok { OnOk result (world self.new
            ≡ after_change (Enter invocation) (world self.old)) }
        ensures err { OnErr result (world self.new ≡ world self.old) };

    /// The innermost invocation's parameters have references. A world without invocations stays as it is.
    fn provide(&mut self, references: Seq<Reference>)
        ensures { world self.new ≡ after_change (Provide references) (world self.old) };

    /// The innermost invocation has other parameters.
    fn replace(&mut self, parameters: Seq<Value>)
        ensures { world self.new ≡ after_change (Replace parameters) (world self.old) };

    /// The innermost invocation's context data have a value under a key. Memory can be wanting; on an error nothing changes.
    fn keep(&mut self, key: Name, value: Value) -> Result<(), AllocError>
        ensures ok { OnOk result (world self.new ≡ after_change (Keep key value) (world self.old)) }
        ensures err { OnErr result (world self.new ≡ world self.old) };

    /// The instance of a product has a value.
    fn hold(&mut self, number: u32, value: Value)
        ensures { world self.new ≡ after_change (Hold number value) (world self.old) };

    /// What stands at the end of the innermost invocation's chain has been run.
    fn reach(&mut self)
        ensures { world self.new ≡ after_change Reach (world self.old) };

    /// The innermost invocation ends.
    fn exit(&mut self)
        ensures { world self.new ≡ after_change Exit (world self.old) };

    /// A body starts on an instance. Memory can be wanting; on an error nothing changes.
    fn start(&mut self, number: u32) -> Result<(), AllocError>
        ensures ok { OnOk result (world self.new
            ≡ after_change (Start number) (world self.old)) }
        ensures err { OnErr result (world self.new ≡ world self.old) };

    /// The innermost body ends.
    fn stop(&mut self)
        ensures { world self.new ≡ after_change Stop (world self.old) };

    /// From here on, what is borrowed is temporary. Memory can be wanting; on an error nothing changes.
    fn borrow(&mut self) -> Result<(), AllocError>
        ensures ok { OnOk result (world self.new
            ≡ after_change Borrow (world self.old)) }
        ensures err { OnErr result (world self.new ≡ world self.old) };

    /// The innermost temporaries are over.
    fn give_back(&mut self)
        ensures { world self.new ≡ after_change Return (world self.old) };

    /// The container is down.
    fn bring_down(&mut self)
        ensures { world self.new ≡ after_change Down (world self.old) };
}
