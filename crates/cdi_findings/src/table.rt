//! The explanations of all words.
ghost use Rattle.std.specs.Prelude.{◌≡◌, map, IfOk};
ghost use Rattle.cdi_findings.specs.Explanation.{heading};
ghost use Rattle.cdi_findings.specs.Words as spec;

use crate::explanation::{Explanation, Subject};
use std::alloc::{AllocError, Global};

macro_rules! explanation {
    ($subject:ident, $number:literal, $word:literal, $meaning:literal, $example:literal) => {
        Explanation {
            subject: Subject::$subject,
            number: $number,
            word: $word,
            meaning: $meaning,
            example: $example,
        }
    };
}

const FAULTS: &[Explanation] = &[
    explanation!(
        Fault,
        "",
        "TooLong",
        "A deployment has more than 1,048,576 bytes. Of a script, in the line script NAME \
         TooLong, it says that it has more than 256 steps.",
        "a script whose list steps has 257 items"
    ),
    explanation!(
        Fault,
        "",
        "NotJson",
        "The bytes are no JSON text in UTF-8, or nest deeper than 127 levels.",
        "{\"classes\":[}"
    ),
    explanation!(
        Fault,
        "",
        "BadNumber",
        "A number is no whole number of 64 bits with its sign.",
        "{\"classes\":[{\"name\":\"K\",\"bean\":{\"priority\":1.5}}]}"
    ),
    explanation!(
        Fault,
        "",
        "Shape",
        "A value isn't of the form of a deployment: an object lacks a key or has one that isn't \
         known, or another kind of value belongs there. Behind the word stands the first such \
         place, as a JSON Pointer.",
        "{\"classes\":[{}]} is answered by Shape /classes/0, since a class has a name"
    ),
    explanation!(
        Fault,
        "",
        "BadName",
        "A text in the place of a name is none: a name has 1 to 255 letters, digits, _, . and $.",
        "{\"classes\":[{\"name\":\"My Clock\"}]}"
    ),
    explanation!(
        Fault,
        "",
        "TooMany",
        "A list is longer than it may be: 1,024 types, qualifiers, bindings, exceptions or \
         scripts, 64 fields or members of a class, 16 parameters or uses in a list, 8 members of \
         a qualifier.",
        "a class whose list members has 65 items"
    ),
    explanation!(
        Fault,
        "",
        "BadStep",
        "An item of a script's steps is no step. The line is script NAME BadStep.",
        "{\"scripts\":[{\"name\":\"s\",\"steps\":[[\"cal\",[\"field\",\"x\"],\"m\",[]]]}]}"
    ),
    explanation!(
        Fault,
        "",
        "Full",
        "The table of names has no room for those of a script: it holds 1,048,576. A deployment \
         of at most 1,048,576 bytes never fills it.",
        "a container whose embedder reads script after script into one table"
    ),
];

const WARNINGS: &[Explanation] = &[explanation!(
    Warning,
    "",
    "RepeatedKey",
    "A key stands twice in one object, and only its last value counts. The deployment is checked \
     and run all the same.",
    "{\"form\":1,\"form\":1}"
)];

const PROBLEMS: &[Explanation] = &[
    explanation!(
        Problem,
        "P1",
        "DuplicateName",
        "A name stands twice among those that have to differ: the types, the qualifiers and the \
         exceptions (with the built-in ones of each), the bindings, the scripts, the names in \
         selected or in order, or the fields and members of one class. So it is if a class has \
         two callbacks of one kind, or repeats a field of a superclass.",
        "{\"classes\":[{\"name\":\"K\"},{\"name\":\"K\"}]}"
    ),
    explanation!(
        Problem,
        "P2",
        "UnknownName",
        "A name isn't declared, or is of another kind than its place wants: extends wants a \
         class that isn't final, implements wants interfaces, quals qualifiers, order \
         interceptors.",
        "{\"classes\":[{\"name\":\"K\",\"implements\":[\"Clok\"]}]}"
    ),
    explanation!(
        Problem,
        "P3",
        "CyclicHierarchy",
        "A class or an interface is its own supertype, by extends and implements.",
        "{\"interfaces\":[{\"name\":\"I\",\"extends\":[\"I\"]}]}"
    ),
    explanation!(
        Problem,
        "P4",
        "AbstractBean",
        "The class of a bean is abstract, so that it has no instances.",
        "{\"classes\":[{\"name\":\"K\",\"abstract\":true,\"bean\":{}}]}"
    ),
    explanation!(
        Problem,
        "P5",
        "TypedNotAType",
        "The list typed of a bean or a producer names a type that it hasn't.",
        "{\"interfaces\":[{\"name\":\"I\"}],\"classes\":[{\"name\":\"K\",\"bean\":{\"typed\":[\"I\"]}}]}"
    ),
    explanation!(
        Problem,
        "P6",
        "SpecializesNothing",
        "A bean specializes, but its class doesn't directly extend the class of a bean.",
        "{\"classes\":[{\"name\":\"K\",\"bean\":{\"specializes\":true}}]}"
    ),
    explanation!(
        Problem,
        "P7",
        "SpecializedTypeLost",
        "A bean lacks a type of the bean that it specializes.",
        "{\"classes\":[{\"name\":\"Y\",\"bean\":{}},{\"name\":\"X\",\"extends\":\"Y\",\"bean\":{\"specializes\":true,\"typed\":[\"X\"]}}]}"
    ),
    explanation!(
        Problem,
        "P8",
        "UnmatchedDisposer",
        "A disposer matches no producer of its class: none makes its type with its qualifiers.",
        "{\"classes\":[{\"name\":\"K\",\"bean\":{},\"members\":[{\"kind\":\"disposer\",\"name\":\"d\",\"type\":\"K\",\"body\":\"b\"}]}],\"scripts\":[{\"name\":\"b\",\"steps\":[]}]}"
    ),
    explanation!(
        Problem,
        "P9",
        "TwoDisposers",
        "Two disposers of a class match one producer.",
        "a producer of the type T in a class with two disposers of the type T"
    ),
    explanation!(
        Problem,
        "P10",
        "ConditionalDependent",
        "A bean of the scope Dependent has an observer with if_exists. No instance of it exists \
         without an owner, so that such an observer could never be notified.",
        "{\"classes\":[{\"name\":\"K\",\"bean\":{},\"members\":[{\"kind\":\"observer\",\"name\":\"o\",\"type\":\"Object\",\"body\":\"b\",\"if_exists\":true}]}],\"scripts\":[{\"name\":\"b\",\"steps\":[]}]}"
    ),
    explanation!(
        Problem,
        "P11",
        "TwoBindingsOfOneType",
        "A list of bindings names one binding twice.",
        "{\"bindings\":[{\"name\":\"Logged\"}],\"classes\":[{\"name\":\"K\",\"bindings\":[\"Logged\",\"Logged\"]}]}"
    ),
    explanation!(
        Problem,
        "P12",
        "UnknownBody",
        "No script has the name of a member's body.",
        "{\"classes\":[{\"name\":\"K\",\"bean\":{},\"members\":[{\"kind\":\"method\",\"name\":\"m\",\"body\":\"b\"}]}]}"
    ),
    explanation!(
        Problem,
        "P13",
        "BodyOutsideShape",
        "A script names something that isn't there: a field or a method that its class lacks, a \
         parameter that its member lacks, a method that the bean behind a reference lacks, or a \
         type, a qualifier or an exception that isn't declared.",
        "{\"classes\":[{\"name\":\"K\",\"bean\":{},\"members\":[{\"kind\":\"method\",\"name\":\"m\",\"body\":\"b\"}]}],\"scripts\":[{\"name\":\"b\",\"steps\":[[\"call\",[\"field\",\"x\"],\"m\",[]]]}]}"
    ),
    explanation!(
        Problem,
        "P14",
        "ProceedNotAllowed",
        "A script of a member that is no method of an interceptor has one of the steps proceed, \
         keep and peek.",
        "{\"classes\":[{\"name\":\"K\",\"bean\":{},\"members\":[{\"kind\":\"method\",\"name\":\"m\",\"body\":\"b\"}]}],\"scripts\":[{\"name\":\"b\",\"steps\":[[\"proceed\"]]}]}"
    ),
    explanation!(
        Problem,
        "P15",
        "CheckedLifecycle",
        "A script of a post-construct or pre-destroy callback throws a checked exception.",
        "{\"exceptions\":[{\"name\":\"E\",\"checked\":true}],\"classes\":[{\"name\":\"K\",\"bean\":{},\"members\":[{\"kind\":\"post\",\"name\":\"p\",\"body\":\"b\"}]}],\"scripts\":[{\"name\":\"b\",\"steps\":[[\"throw\",\"E\"]]}]}"
    ),
    explanation!(
        Problem,
        "P16",
        "Unsatisfied",
        "An injection point resolves to no bean: no enabled bean has its type and its \
         qualifiers. Declare one, select an alternative that has them, or ask for others.",
        "{\"classes\":[{\"name\":\"T\"},{\"name\":\"U\",\"bean\":{},\"inject\":[{\"name\":\"i\",\"type\":\"T\"}]}]}"
    ),
    explanation!(
        Problem,
        "P17",
        "Ambiguous",
        "An injection point resolves to several beans: they have its type and its qualifiers, \
         and no one alternative among them is preferred. Add a qualifier, or give one of them \
         alternative and a priority.",
        "{\"classes\":[{\"name\":\"T\",\"bean\":{}},{\"name\":\"S\",\"extends\":\"T\",\"bean\":{}},{\"name\":\"U\",\"bean\":{},\"inject\":[{\"name\":\"i\",\"type\":\"T\"}]}]}"
    ),
    explanation!(
        Problem,
        "P18",
        "Unproxyable",
        "The type of an injection point is a final class, and its bean has a normal scope, so \
         that a client proxy would have to extend the class.",
        "{\"classes\":[{\"name\":\"T\",\"final\":true,\"bean\":{\"scope\":\"ApplicationScoped\"}},{\"name\":\"U\",\"bean\":{},\"inject\":[{\"name\":\"i\",\"type\":\"T\"}]}]}"
    ),
    explanation!(
        Problem,
        "P19",
        "InconsistentSpecialization",
        "Two enabled beans specialize one bean.",
        "{\"classes\":[{\"name\":\"Y\",\"bean\":{}},{\"name\":\"A\",\"extends\":\"Y\",\"bean\":{\"specializes\":true}},{\"name\":\"B\",\"extends\":\"Y\",\"bean\":{\"specializes\":true}}]}"
    ),
    explanation!(
        Problem,
        "P20",
        "DependentCycle",
        "A dependent bean or an interceptor needs an instance of itself, directly or through \
         others. Give one of them a normal scope: a client proxy then stands in its place.",
        "{\"classes\":[{\"name\":\"A\",\"bean\":{},\"inject\":[{\"name\":\"b\",\"type\":\"B\"}]},{\"name\":\"B\",\"bean\":{},\"inject\":[{\"name\":\"a\",\"type\":\"A\"}]}]}"
    ),
    explanation!(
        Problem,
        "P21",
        "FinalIntercepted",
        "A bean whose class is final has an interceptor.",
        "a final class with the binding Logged, for which an interceptor is enabled"
    ),
    explanation!(
        Problem,
        "P22",
        "TooMany",
        "There are more than 4,096 beans, or more than 16,384 observers, the inherited ones \
         counted for each bean.",
        "70 classes with 60 producers each"
    ),
];

const REFUSALS: &[Explanation] = &[
    explanation!(
        Refusal,
        "",
        "BadLine",
        "The line is no command: no JSON array in UTF-8 of one of the forms of commands.",
        "[\"call\",null,\"K\",[],\"m\"], which lacks the list of values"
    ),
    explanation!(
        Refusal,
        "",
        "Halted",
        "An earlier command, or the start, was cut. The container answers nothing more, but its \
         trace can be read.",
        "a call behind one that was answered by halted"
    ),
    explanation!(
        Refusal,
        "",
        "Down",
        "The container was shut down.",
        "[\"live\"] behind [\"shutdown\"]"
    ),
    explanation!(
        Refusal,
        "",
        "Busy",
        "A command that was started in turns isn't over. The program cdi never answers so.",
        "an embedder that starts a command before the turns of another one have ended"
    ),
    explanation!(
        Refusal,
        "",
        "NoRequest",
        "The request that the command names isn't open.",
        "[\"end\",\"r1\"] twice"
    ),
    explanation!(
        Refusal,
        "",
        "RequestOpen",
        "The request that a begin names is open already.",
        "[\"begin\",\"r1\"] twice"
    ),
    explanation!(
        Refusal,
        "",
        "NoSession",
        "The session that an invalidate names isn't there.",
        "[\"invalidate\",\"s1\"] as the first command"
    ),
    explanation!(
        Refusal,
        "",
        "SessionEnding",
        "The session is to end with its last request, and so can't be invalidated or joined.",
        "[\"begin\",\"r1\",\"s1\"], [\"invalidate\",\"s1\"], [\"begin\",\"r2\",\"s1\"]"
    ),
    explanation!(
        Refusal,
        "",
        "TooManyRequests",
        "256 requests are open.",
        "257 begins without an end"
    ),
    explanation!(
        Refusal,
        "",
        "TooManySessions",
        "There are 1,024 sessions, and a begin needs a new one.",
        "1,025 begins, each with a session of its own, and their ends"
    ),
    explanation!(
        Refusal,
        "",
        "UnknownName",
        "A type, a qualifier or a member of one isn't declared, or the class of an event is none \
         of the deployment or is abstract.",
        "[\"call\",null,\"Clok\",[],\"m\",[]]"
    ),
    explanation!(
        Refusal,
        "",
        "NoMethod",
        "A call resolves to a bean without the method, or a read to a bean that is no product.",
        "[\"read\",null,\"K\",[]] of a class K"
    ),
    explanation!(
        Refusal,
        "",
        "WrongCount",
        "A call has another number of values than its method.",
        "[\"call\",null,\"K\",[],\"m\",[1]] of a method without args"
    ),
];

const CAUSES: &[Explanation] = &[
    explanation!(
        Cause,
        "",
        "ticks",
        "Another entry is due, and the command has used up its budget: 100,000 entries, or what \
         --ticks sets.",
        "two beans that call each other without end, and so are cut by their depth or by their \
         entries"
    ),
    explanation!(
        Cause,
        "",
        "depth",
        "A body would start below the last level of nested bodies: 32, or what --depth sets.",
        "a method m of K with the step [\"own\",\"m\",[]]"
    ),
    explanation!(
        Cause,
        "",
        "numbers",
        "A new instance would have no number left: they end with 4,294,967,295.",
        "a container that has made that many instances"
    ),
    explanation!(
        Cause,
        "",
        "memory",
        "Memory ran out within the command.",
        "a command whose instances don't fit into the memory of the process"
    ),
];

const EXCEPTIONS: &[Explanation] = &[
    explanation!(
        Exception,
        "",
        "ContextNotActiveException",
        "A bean of the scope RequestScoped or SessionScoped is used in a command without such a \
         request or session.",
        "[\"call\",null,\"R\",[],\"m\",[]] of a request-scoped bean R"
    ),
    explanation!(
        Exception,
        "",
        "CreationException",
        "A constructor, an initializer, a callback or a producer threw a checked exception while \
         an instance was made.",
        "a producer with the step [\"throw\",\"E\"], if E is checked"
    ),
    explanation!(
        Exception,
        "",
        "IllegalProductException",
        "The product of a producer with a normal scope is null.",
        "a request-scoped producer with the step [\"give\",null]"
    ),
    explanation!(
        Exception,
        "",
        "IllegalStateException",
        "The instance behind a reference is destroyed, is being made or destroyed, or is in use, \
         so that it can't be used or destroyed.",
        "[\"destroy\",[\"local\",0]], [\"call\",[\"local\",0],\"m\",[]]"
    ),
    explanation!(
        Exception,
        "",
        "IllegalArgumentException",
        "An interceptor proceeds with another number of values than the method takes.",
        "[\"proceed\",[1,2]] around a method of one value"
    ),
    explanation!(
        Exception,
        "",
        "NullPointerException",
        "A reference is empty, not injected or not found yet.",
        "[\"call\",[\"local\",0],\"m\",[]] before any find"
    ),
    explanation!(
        Exception,
        "",
        "ObserverException",
        "An observer threw a checked exception.",
        "an observer with the step [\"throw\",\"E\"], if E is checked"
    ),
    explanation!(
        Exception,
        "",
        "UnsatisfiedResolutionException",
        "A call, a read or a find resolves to no bean.",
        "[\"call\",null,\"Clock\",[],\"hour\",[]] without a bean of the type Clock"
    ),
    explanation!(
        Exception,
        "",
        "AmbiguousResolutionException",
        "A call, a read or a find resolves to several beans.",
        "[\"find\",\"Clock\",[]] with two beans of the type Clock"
    ),
];

const REPLIES: &[Explanation] = &[
    explanation!(
        Reply,
        "",
        "value",
        "A call or a read is answered by this value: null, a whole number or a text.",
        "[\"value\",1]"
    ),
    explanation!(
        Reply,
        "",
        "threw",
        "A call, a read or an event ended with this exception.",
        "[\"threw\",\"NullPointerException\"]"
    ),
    explanation!(
        Reply,
        "",
        "done",
        "The start, a begin, an end, an invalidate, an event or a shutdown was carried out.",
        "[\"done\"] to [\"begin\",\"r1\"]"
    ),
    explanation!(
        Reply,
        "",
        "live",
        "These are the numbers of the instances that live, in ascending order.",
        "[\"live\",[1,2]] to [\"live\"]"
    ),
    explanation!(
        Reply,
        "",
        "refused",
        "The command isn't carried out, for the reason that is told. Nothing changes but the \
         trace, which is empty then.",
        "[\"refused\",\"NoMethod\"]"
    ),
    explanation!(
        Reply,
        "",
        "halted",
        "The command was cut, for the cause that is told. The container carries out nothing \
         more.",
        "[\"halted\",\"ticks\"]"
    ),
];

const ENTRIES: &[Explanation] = &[
    explanation!(
        Entry,
        "",
        "new",
        "An instance is begun: its number, and the bean or the interceptor that it is of.",
        "[\"new\",1,\"K\"]"
    ),
    explanation!(
        Entry,
        "",
        "ready",
        "The instance with this number is made.",
        "[\"ready\",1]"
    ),
    explanation!(
        Entry,
        "",
        "drop",
        "The instance with this number will not be: its creation failed, or a producer of the \
         scope Dependent gave null.",
        "[\"drop\",1] behind [\"did\",[\"throw\",\"E\"]] of a constructor"
    ),
    explanation!(
        Entry,
        "",
        "run",
        "A body starts: the number of its instance, and the member that it is of.",
        "[\"run\",1,\"K#up\"]"
    ),
    explanation!(
        Entry,
        "",
        "did",
        "The running body gave this act, which is written as a step of a script.",
        "[\"did\",[\"set\",\"n\",1]]"
    ),
    explanation!(
        Entry,
        "",
        "pick",
        "One of several was chosen that go in any order, observers or dependents: how many \
         they were, and which it is, from 0.",
        "[\"pick\",2,0]"
    ),
    explanation!(
        Entry,
        "",
        "event",
        "An event of this class, with these qualifiers, is delivered to its observers.",
        "[\"event\",\"Sale\",[]]"
    ),
    explanation!(
        Entry,
        "",
        "end",
        "The destruction of the instance with this number begins.",
        "[\"end\",1]"
    ),
    explanation!(
        Entry,
        "",
        "gone",
        "The destruction of the instance with this number is over.",
        "[\"gone\",1]"
    ),
];

/// Of the faults of a deployment and of its scripts.
pub fn faults() -> &'static [Explanation]
    ensures { map heading result.now ≡ spec.fault_words }
{
    FAULTS
}

/// Of the warnings about a deployment.
pub fn warnings() -> &'static [Explanation]
    ensures { map heading result.now ≡ spec.warning_words }
{
    WARNINGS
}

/// Of the problems of a deployment, by their numbers (Jakarta CDI 4.0, *Problems detected automatically by the container*).
pub fn problems() -> &'static [Explanation]
    ensures { map heading result.now ≡ spec.problem_words }
{
    PROBLEMS
}

/// Of the refusals of a command, in the order in which they are looked at.
pub fn refusals() -> &'static [Explanation]
    ensures { map heading result.now ≡ spec.refusal_words }
{
    REFUSALS
}

/// Of the causes for which a command is cut.
pub fn causes() -> &'static [Explanation]
    ensures { map heading result.now ≡ spec.cause_words }
{
    CAUSES
}

/// Of the built-in exceptions.
pub fn exceptions() -> &'static [Explanation]
    ensures { map heading result.now ≡ spec.exception_words }
{
    EXCEPTIONS
}

/// Of the replies to commands.
pub fn replies() -> &'static [Explanation]
    ensures { map heading result.now ≡ spec.reply_words }
{
    REPLIES
}

/// Of the entries of a trace.
pub fn entries() -> &'static [Explanation]
    ensures { map heading result.now ≡ spec.entry_words }
{
    ENTRIES
}

/// All of them. Two words stand twice, since they have two meanings.
pub fn explanations(alloc: Global) -> Result<Vec<Explanation>, AllocError>
    ensures { IfOk result (λ all. map heading all.items ≡ spec.words) }
{
    let mut all = Vec::from_slice(alloc, faults())?;
    all.extend_from_slice(warnings())?;
    all.extend_from_slice(problems())?;
    all.extend_from_slice(refusals())?;
    all.extend_from_slice(causes())?;
    all.extend_from_slice(exceptions())?;
    all.extend_from_slice(replies())?;
    all.extend_from_slice(entries())?;
    Ok(all)
}
