//! Why a command is given up before anything is written, and how that is told.
ghost use Rattle.std.specs.Prelude.{◌≡◌, OnOk};
ghost use Rattle.std.specs.Io.KnownBytes.{Appends};
ghost use Rattle.mls_host.specs.Reason.{role_word, input_reason, input_text, fault_text, cause_text, line_text};
ghost use Rattle.mls_host.specs.Reason.{front_text, spot_text, place_text, text_fault_text, cert_fault_text};
ghost use Rattle.mls_host.specs.Reason.{script_fault_text, reason_text, reason_status};

use crate::host::HostFault;
use crate::usage::tell_memory;
use mls_certcheck::{CertCause, CertFault};
use mls_fragments::OpenFault;
use mls_lattice::PolicyFault;
use mls_parser::{TextCause, TextFault};
use mls_scheme::SchemeFault;
use mls_script::{ScriptCause, ScriptFault};
use mls_tokens::Piece::{Number, Text};
use mls_tokens::{WriteFault, write_pieces};
use std::alloc::AllocError;
use std::io::Write;

/// What an input is to the program.
#[derive(Clone, Copy)]
pub enum Role {
    Policy,
    Schemes,
    Transactions,
    Certificates,
    Script,
    Store,
}

impl Role {
    pub(crate) fn word(self) -> &'static str
        ensures { result.now ≡ role_word self }
    {
        match self {
            Role::Policy => "policy",
            Role::Schemes => "schemes",
            Role::Transactions => "transactions",
            Role::Certificates => "certificates",
            Role::Script => "script",
            Role::Store => "store",
        }
    }
}

/// Why a command is given up before anything is written.
/// Each function answers it that runs before anything is written; [`Stop`](crate::Stop) adds what stopped what
/// was begun. So no contract has to say that a refusal is one of the first kind.
#[derive(Clone, Copy)]
pub enum Reason {
    /// The host did not give an input.
    Unreadable(Role),
    TooLong(Role),
    Policy(PolicyFault),
    /// The policy has no label of the name for which alone a run is to print.
    Reader,
    /// It has none of the name at which a shell is to be.
    Label,
    /// What stands for the user of a shell is no name.
    User,
    /// No transaction has the name of the one that is to be explained.
    Name,
    Schemes(SchemeFault),
    Transactions(TextFault),
    Certificates(CertFault),
    Script(ScriptFault),
    /// The store was not opened.
    Store(OpenFault),
    Memory,
}

fn tell_input<W: Write>(err: &mut W, role: Role, word: &str) -> Result<(), WriteFault<W>>
    ensures { OnOk result (Appends (W.contents err.old) (W.contents err.new) (input_text role word.now)) }
{
    let pieces = [
        Text("mldb: "),
        Text(role.word()),
        Text(": "),
        Text(word),
        Text("\n"),
    ];
    write_pieces(err, &pieces)
}

pub(crate) fn tell_fault<'a, W: Write>(
    err: &mut W,
    what: &'a str,
    code: u8,
    word: &'a str,
) -> Result<(), WriteFault<W>>
    ensures { OnOk result (Appends (W.contents err.old) (W.contents err.new) (fault_text what.now code word.now)) }
{
    let pieces = [
        Text("mldb: "),
        Text(what),
        Text(": "),
        Number(usize::from(code)),
        Text(" "),
        Text(word),
        Text("\n"),
    ];
    write_pieces(err, &pieces)
}

fn tell_cause<W: Write>(err: &mut W, what: &str, cause: TextCause) -> Result<(), WriteFault<W>>
    ensures { OnOk result (Appends (W.contents err.old) (W.contents err.new) (cause_text what.now cause)) }
{
    tell_fault(err, what, cause.code(), cause.word())
}

fn tell_line<W: Write>(
    err: &mut W,
    role: Role,
    code: u8,
    word: &str,
    line: usize,
) -> Result<(), WriteFault<W>>
    ensures { OnOk result (Appends (W.contents err.old) (W.contents err.new) (line_text role code word.now line)) }
{
    let pieces = [
        Text("mldb: "),
        Text(role.word()),
        Text(": "),
        Number(usize::from(code)),
        Text(" "),
        Text(word),
        Text(" at "),
        Number(line),
        Text("\n"),
    ];
    write_pieces(err, &pieces)
}

fn tell_front<W: Write>(err: &mut W, role: Role, code: u8, word: &str) -> Result<(), WriteFault<W>>
    ensures { OnOk result (Appends (W.contents err.old) (W.contents err.new) (front_text role code word.now)) }
{
    let pieces = [
        Text("mldb: "),
        Text(role.word()),
        Text(": "),
        Number(usize::from(code)),
        Text(" "),
        Text(word),
        Text(" at "),
    ];
    write_pieces(err, &pieces)
}

fn tell_spot<W: Write>(err: &mut W, line: usize, column: usize) -> Result<(), WriteFault<W>>
    ensures { OnOk result (Appends (W.contents err.old) (W.contents err.new) (spot_text line column)) }
{
    write_pieces(err, &[Number(line), Text(":"), Number(column), Text("\n")])
}

fn tell_place<W: Write>(
    err: &mut W,
    role: Role,
    code: u8,
    word: &str,
    line: usize,
    column: usize,
) -> Result<(), WriteFault<W>>
    ensures { OnOk result (Appends (W.contents err.old) (W.contents err.new)
        (place_text role code word.now line column)) }
{
    tell_front(err, role, code, word)?;
    tell_spot(err, line, column)
}

fn tell_text<W: Write>(err: &mut W, fault: &TextFault) -> Result<(), WriteFault<W>>
    ensures { OnOk result (Appends (W.contents err.old) (W.contents err.new) (text_fault_text fault.now)) }
{
    let (code, word) = (fault.cause.code(), fault.cause.word());
    tell_place(
        err,
        Role::Transactions,
        code,
        word,
        fault.line,
        fault.column,
    )
}

fn tell_cert<W: Write>(err: &mut W, fault: &CertFault) -> Result<(), WriteFault<W>>
    ensures { OnOk result (Appends (W.contents err.old) (W.contents err.new) (cert_fault_text fault.now)) }
{
    let (code, word) = (fault.cause.code(), fault.cause.word());
    tell_line(err, Role::Certificates, code, word, fault.line)
}

fn tell_script<W: Write>(err: &mut W, fault: &ScriptFault) -> Result<(), WriteFault<W>>
    ensures { OnOk result (Appends (W.contents err.old) (W.contents err.new) (script_fault_text fault.now)) }
{
    let (code, word) = (fault.cause.code(), fault.cause.word());
    tell_place(err, Role::Script, code, word, fault.line, fault.column)
}

impl Reason {
    /// The reason where the host did not give an input.
    pub fn of_input(role: Role, fault: HostFault) -> Reason
        ensures { result ≡ input_reason role fault }
    {
        match (fault, role) {
            (HostFault::Unreadable, _) => Reason::Unreadable(role),
            (HostFault::TooLong, _) => Reason::TooLong(role),
            (HostFault::Memory, Role::Policy) => Reason::Policy(PolicyFault::Memory),
            (HostFault::Memory, Role::Schemes) => Reason::Schemes(SchemeFault::Memory),
            (HostFault::Memory, Role::Transactions) => Reason::Transactions(TextFault {
                line: 1,
                column: 1,
                cause: TextCause::Memory,
            }),
            (HostFault::Memory, Role::Certificates) => Reason::Certificates(CertFault {
                line: 1,
                cause: CertCause::Memory,
            }),
            (HostFault::Memory, Role::Script) => Reason::Script(ScriptFault {
                line: 1,
                column: 1,
                cause: ScriptCause::Memory,
            }),
            (HostFault::Memory, Role::Store) => Reason::Store(OpenFault::Memory),
        }
    }

    /// The exit status: 2 where an input was refused, 3 for store and memory.
    pub fn status(&self) -> u8
        ensures { result ≡ reason_status self.now }
    {
        match self {
            Reason::Policy(PolicyFault::Memory)
            | Reason::Schemes(SchemeFault::Memory)
            | Reason::Store(_)
            | Reason::Memory => 3,
            Reason::Transactions(fault) if fault.cause == TextCause::Memory => 3,
            Reason::Certificates(fault) if fault.cause == CertCause::Memory => 3,
            Reason::Script(fault) if fault.cause == ScriptCause::Memory => 3,
            _ => 2,
        }
    }

    /// Writes the line that tells it.
    pub fn tell<W: Write>(&self, err: &mut W) -> Result<(), WriteFault<W>>
        ensures { OnOk result (Appends (W.contents err.old) (W.contents err.new) (reason_text self.now)) }
    {
        match self {
            Reason::Unreadable(role) => tell_input(err, *role, "unreadable"),
            Reason::TooLong(role) => tell_input(err, *role, "too long"),
            Reason::Policy(fault) => tell_fault(
                err,
                Role::Policy.word(),
                fault.code(),
                fault.word(),
            ),
            Reason::Reader => tell_cause(err, "at", TextCause::UnknownName),
            Reason::Label => tell_cause(err, "label", TextCause::UnknownName),
            Reason::User => tell_cause(err, "user", TextCause::Expected),
            Reason::Name => tell_cause(err, "name", TextCause::UnknownName),
            Reason::Schemes(fault) => tell_fault(
                err,
                Role::Schemes.word(),
                fault.code(),
                fault.word(),
            ),
            Reason::Transactions(fault) => tell_text(err, fault),
            Reason::Certificates(fault) => tell_cert(err, fault),
            Reason::Script(fault) => tell_script(err, fault),
            Reason::Store(fault) => tell_fault(err, Role::Store.word(), fault.code(), fault.word()),
            Reason::Memory => tell_memory(err),
        }
    }
}

impl From<AllocError> for Reason {
    ghost use Rattle.std.specs.Prelude.{◌≡◌};
    ghost use Rattle.mls_host.specs.declared.reason.Reason.TheVariants.{Memory};

    ghost from_gives = { λ _ e. e ≡ Memory };

    fn from(_error: AllocError) -> Reason {
        Reason::Memory
    }
}
