//! What the words of a step say, taken one by one.
ghost use Rattle.std.specs.Prelude.{◌≡◌, ◌≤◌, Some, IfOk, IfErr};
ghost use Rattle.net_base.specs.StepWords as kind;
ghost use Rattle.world_text.specs.LineReading.{read_value};
ghost use Rattle.world_words.specs.Told.{IsWrong};

use crate::arguments::Arguments;
use crate::fault::LineFault;
use crate::names::{is_name, is_text, is_word};
use crate::remote_paths::is_remote_path;
use net_base::{Mode, Octets};
use std::alloc::Global;
use udp_headers::decode_headers;
use words::{are_bytes, mode_named, number_in, read_hex_word};
use world_text::LineCause;

impl<'a> Arguments<'a> {
    /// A name.
    pub(crate) fn name(&mut self, alloc: Global) -> Result<Octets, LineFault>
        ensures ok { IfOk result (λ value. read_value kind.AName self.old ≡ Some (value, self.new)) }
        ensures wrong { IfErr result (λ e. IsWrong e (read_value kind.AName self.old)) }
    {
        match self.next() {
            Some(word) if is_name(word) => Ok(Octets::from_slice(alloc, word)?),
            _ => Err(LineFault::Cause(LineCause::WrongArgument)),
        }
    }

    /// A path or an address.
    pub(crate) fn word(&mut self, alloc: Global) -> Result<Octets, LineFault>
        ensures ok { IfOk result (λ value. read_value kind.AWord self.old ≡ Some (value, self.new)) }
        ensures wrong { IfErr result (λ e. IsWrong e (read_value kind.AWord self.old)) }
    {
        match self.next() {
            Some(word) if is_word(word) => Ok(Octets::from_slice(alloc, word)?),
            _ => Err(LineFault::Cause(LineCause::WrongArgument)),
        }
    }

    /// A path of a remote file.
    pub(crate) fn remote_path(&mut self, alloc: Global) -> Result<Octets, LineFault>
        ensures ok { IfOk result (λ value. read_value kind.ARemotePath self.old ≡ Some (value, self.new)) }
        ensures wrong { IfErr result (λ e. IsWrong e (read_value kind.ARemotePath self.old)) }
    {
        match self.next() {
            Some(word) if is_word(word) && is_remote_path(word) => Ok(Octets::from_slice(
                alloc, word,
            )?),
            _ => Err(LineFault::Cause(LineCause::WrongArgument)),
        }
    }

    /// A number from the one bound to the other.
    pub(crate) fn number(&mut self, least: u64, most: u64) -> Result<u64, LineFault>
        ensures ok { IfOk result (λ value. read_value (kind.ANumber least most) self.old ≡ Some (value, self.new)) }
        ensures wrong { IfErr result (λ e. IsWrong e (read_value (kind.ANumber least most) self.old)) }
        ensures within { IfOk result (λ value. value ≤ most) }
    {
        let Some(word) = self.next() else {
            return Err(LineFault::Cause(LineCause::WrongArgument));
        };
        match number_in(least, most, word) {
            Some(number) => Ok(number),
            None => Err(LineFault::Cause(LineCause::WrongArgument)),
        }
    }

    /// A mode.
    pub(crate) fn mode(&mut self) -> Result<Mode, LineFault>
        ensures ok { IfOk result (λ value. read_value kind.AMode self.old ≡ Some (value, self.new)) }
        ensures wrong { IfErr result (λ e. IsWrong e (read_value kind.AMode self.old)) }
    {
        let Some(word) = self.next() else {
            return Err(LineFault::Cause(LineCause::WrongArgument));
        };
        match mode_named(word) {
            Some(mode) => Ok(mode),
            None => Err(LineFault::Cause(LineCause::WrongArgument)),
        }
    }

    /// A mode, where a word is left.
    pub(crate) fn perhaps_mode(&mut self) -> Result<Option<Mode>, LineFault>
        ensures ok { IfOk result (λ value. read_value kind.PerhapsMode self.old ≡ Some (value, self.new)) }
        ensures wrong { IfErr result (λ e. IsWrong e (read_value kind.PerhapsMode self.old)) }
    {
        let Some(word) = self.next() else {
            return Ok(None);
        };
        match mode_named(word) {
            Some(mode) => Ok(Some(mode)),
            None => Err(LineFault::Cause(LineCause::WrongArgument)),
        }
    }

    /// Bytes in hexadecimal.
    pub(crate) fn bytes(&mut self, alloc: Global) -> Result<Octets, LineFault>
        ensures ok { IfOk result (λ value. read_value kind.HexBytes self.old ≡ Some (value, self.new)) }
        ensures wrong { IfErr result (λ e. IsWrong e (read_value kind.HexBytes self.old)) }
    {
        let Some(word) = self.next() else {
            return Err(LineFault::Cause(LineCause::WrongArgument));
        };
        match read_hex_word(alloc, word)? {
            Some(bytes) => {
                are_bytes(bytes.as_slice());
                Ok(bytes)
            }
            None => Err(LineFault::Cause(LineCause::WrongArgument)),
        }
    }

    /// Headers and a text, in hexadecimal.
    pub(crate) fn datagram(&mut self, alloc: Global) -> Result<Octets, LineFault>
        ensures ok { IfOk result (λ value. read_value kind.ADatagram self.old ≡ Some (value, self.new)) }
        ensures wrong { IfErr result (λ e. IsWrong e (read_value kind.ADatagram self.old)) }
    {
        let Some(word) = self.next() else {
            return Err(LineFault::Cause(LineCause::WrongArgument));
        };
        match read_hex_word(alloc, word)? {
            Some(bytes) if decode_headers(bytes.as_slice()).is_ok() => {
                are_bytes(bytes.as_slice());
                Ok(bytes)
            }
            _ => Err(LineFault::Cause(LineCause::WrongArgument)),
        }
    }

    /// The rest of the line.
    pub(crate) fn rest(&mut self, alloc: Global) -> Result<Octets, LineFault>
        ensures ok { IfOk result (λ value. read_value kind.TheRest self.old ≡ Some (value, self.new)) }
        ensures wrong { IfErr result (λ e. IsWrong e (read_value kind.TheRest self.old)) }
    {
        match self.text() {
            Some(text) if is_text(text) => Ok(Octets::from_slice(alloc, text)?),
            _ => Err(LineFault::Cause(LineCause::WrongArgument)),
        }
    }

    /// The rest of the line, from so many bytes to so many.
    pub(crate) fn rest_of(
        &mut self,
        alloc: Global,
        least: usize,
        most: usize,
    ) -> Result<Octets, LineFault>
        ensures ok { IfOk result (λ value. read_value (kind.TheRestOf least most) self.old ≡ Some (value, self.new)) }
        ensures wrong { IfErr result (λ e. IsWrong e (read_value (kind.TheRestOf least most) self.old)) }
    {
        match self.text() {
            Some(text) if is_text(text) && least <= text.len() && text.len() <= most => Ok(
                Octets::from_slice(alloc, text)?,
            ),
            _ => Err(LineFault::Cause(LineCause::WrongArgument)),
        }
    }
}
