//! What is asked for, and what decides it.

ghost use Rattle.std.specs.Prelude.{◌≡◌, [], IfOk};
ghost use Rattle.wl_client.specs.declared.reply.Heard.TheVariants.{Message, Status};
ghost use Rattle.wl_control.specs.Courses.{one_less, part_course, course, decides};
ghost use Rattle.wl_control.specs.Takings.{Runs};

use crate::lines::put_lines;
use crate::request::{Form, TokenForm};
use bundle_files::BundleKind;
use pb_wire::FieldFault;
use std::alloc::Global;
use wl_client::{ClientFault, Heard};
use wl_octets::{Memory, Octets};

/// What a message says, and how it is written.
#[derive(Clone, Copy, Debug, Drop, PartialEq, Eq)]
pub enum Kind {
    /// An `X509SVIDResponse`.
    X509(Form),
    /// An `X509SVIDResponse` that has files, as a frame of gRPC.
    X509Frame,
    /// An `X509BundlesResponse` or a `JWTBundlesResponse` that has files, as a frame of gRPC.
    BundlesFrame(BundleKind),
    /// An `X509BundlesResponse`.
    Bundles(Form),
    /// A `JWTSVIDResponse`.
    Jwt(TokenForm),
    /// A `JWTSVIDResponse` with what its tokens say.
    DecodedJwt(TokenForm),
    /// A `JWTBundlesResponse`.
    JwtBundles(TokenForm),
    /// A `HealthCheckResponse`.
    State,
}

/// What is asked for still.
#[derive(Clone, Copy, Debug, PartialEq, Eq)]
pub struct Asked {
    pub kind: Kind,
    /// How many messages.
    pub left: u32,
    /// Whether the status 0 is awaited after them.
    pub awaits: bool,
}

/// How it was decided.
#[derive(Drop, PartialEq)]
pub enum Verdict {
    /// All was had.
    Done,
    /// The server answered this status.
    Denied { code: u32, text: Octets },
    /// Nothing more is heard.
    Faulted(ClientFault),
}

impl Asked {
    /// One message less.
    fn count_down(&mut self) -> Option<Verdict>
        requires { self.old.left ≡ 0 → ⊥ }
        ensures { Runs (record { lines = []; after = one_less self.old }) result [] [] self.new }
    {
        if self.left == 1 && !self.awaits {
            return Some(Verdict::Done);
        }
        self.left -= 1;
        None
    }

    /// Takes a message.
    #[tactic(auto, unfolding(crate::specs::Courses::part_course))]
    fn take_message(
        &mut self,
        alloc: Global,
        message: &[u8],
        text: &mut Vec<u8>,
    ) -> Result<Option<Verdict>, Memory>
        ensures { IfOk result (λ verdict. Runs (part_course (Message message.now) self.old) verdict text.old.items text.new.items self.new) }
    {
        if self.left == 0 {
            return Ok(Some(Verdict::Faulted(ClientFault::TooMany)));
        }
        match put_lines(alloc, text, self.kind, message) {
            Ok(()) => Ok(self.count_down()),
            Err(FieldFault::Memory) => Err(Memory),
            Err(fault) => Ok(Some(Verdict::Faulted(ClientFault::Undecodable(fault)))),
        }
    }

    /// Takes a status.
    #[tactic(auto, unfolding(crate::specs::Courses::part_course))]
    fn take_status(&mut self, alloc: Global, code: u32, text: &Octets) -> Result<Verdict, Memory>
        ensures { IfOk result (λ v. part_course (Status code text.now) self.old ≡ decides v) }
    {
        if self.left == 0 && code == 0 {
            return Ok(Verdict::Done);
        }
        Ok(Verdict::Denied {
            code,
            text: text.copy(alloc)?,
        })
    }

    /// Takes one part of an answer.
    #[tactic(auto, unfolding(crate::specs::Courses::part_course))]
    fn take(
        &mut self,
        alloc: Global,
        heard: &Heard,
        text: &mut Vec<u8>,
    ) -> Result<Option<Verdict>, Memory>
        ensures { IfOk result (λ verdict. Runs (part_course heard.now self.old) verdict text.old.items text.new.items self.new) }
    {
        match heard {
            Heard::Head => Ok(None),
            Heard::Message(message) => self.take_message(alloc, message.as_slice(), text),
            Heard::Status { code, text } => Ok(Some(self.take_status(alloc, *code, text)?)),
        }
    }

    /// Takes parts of an answer in turn, up to the one that decides, and puts the lines that are due after `text`.
    pub fn take_all(
        &mut self,
        alloc: Global,
        told: &[Heard],
        text: &mut Vec<u8>,
    ) -> Result<Option<Verdict>, Memory>
        ensures { IfOk result (λ verdict. Runs (course told.now self.old) verdict text.old.items text.new.items self.new) }
    {
        let mut rest = told;
        'parts: while let Some((heard, after)) = rest.split_first() {
            let verdict = self.take(alloc, heard, text)?;
            if verdict.is_some() {
                return Ok(verdict);
            }
            rest = after;
        }
        Ok(None)
    }
}
