//! Opening another file of a conversation: listening and accepting.
ghost use Rattle.std.specs.Prelude.{◌≡◌, IfOk};
ghost use Rattle.net_base.specs.Paths as paths;
ghost use Rattle.net_base.specs.declared.names.FileName.TheVariants as files;
ghost use Rattle.net_base.specs.declared.names.Node.TheVariants as node;
ghost use Rattle.net_base.specs.declared.world.Step.TheVariants as step;
ghost use Rattle.net_tree.specs.Bindings.{bound_file};
ghost use Rattle.dial_lib.specs.Beside as spec;

use net_base::{FileName, Mode, Octets, Proto, Reply};
use net_tree::Fid;
use script_task::{Names, Request, Task};
use std::alloc::{AllocError, Global};
use words::{file_name, proto_name, put_decimal};

/// Opens another file of a conversation with a new name.
#[derive(Debug, Drop)]
pub struct Beside {
    name: Octets,
    from: Octets,
    file: FileName,
    is_through: bool,
}

impl Beside {
    /// Waits for a call at the conversation of `from`, and binds `name` to the ctl file of the call.
    pub fn listen(alloc: Global, name: &[u8], from: &[u8]) -> Result<Beside, AllocError>
        ensures value { IfOk result (λ t. t ≡ spec.begun files.Listen name.now from.now) }
        ensures stands { IfOk result (λ t. spec.Begins t (step.Listen name.now from.now)) }
    {
        Beside::new(alloc, name, from, FileName::Listen)
    }

    /// Accepts a call: binds `name` to the data file of the conversation of `from`.
    pub fn accept(alloc: Global, name: &[u8], from: &[u8]) -> Result<Beside, AllocError>
        ensures value { IfOk result (λ t. t ≡ spec.begun files.Data name.now from.now) }
        ensures stands { IfOk result (λ t. spec.Begins t (step.Accept name.now from.now)) }
    {
        Beside::new(alloc, name, from, FileName::Data)
    }

    fn new(alloc: Global, name: &[u8], from: &[u8], file: FileName) -> Result<Beside, AllocError>
        ensures { IfOk result (λ t. t ≡ spec.begun file name.now from.now) }
    {
        Ok(Beside {
            name: Octets::from_slice(alloc, name)?,
            from: Octets::from_slice(alloc, from)?,
            file,
            is_through: false,
        })
    }
}

impl Task for Beside {
    ghost use Rattle.dial_lib.specs.BesideLaws as laws;

    ghost asks = { spec.asks };

    ghost after = { spec.after };

    ghost Stands = { spec.StandsFor };

    ghost asks_so = { laws.asks_so };

    ghost moves_so = { laws.moves_so };

    fn next(&self, alloc: Global, fids: &Names) -> Result<Option<Request>, AllocError> {
        if self.is_through {
            return Ok(None);
        }
        Ok(Some(request_of(alloc, fids, &self.name, &self.from, self.file)?))
    }

    fn is_through(&self) -> bool {
        self.is_through
    }

    fn told(&mut self, _alloc: Global, _reply: Reply) -> Result<(), AllocError> {
        self.is_through = true;
        Ok(())
    }
}

// The request that opens a file of the conversation of `from` with a new name.
fn request_of(
    alloc: Global,
    fids: &Names,
    name: &Octets,
    from: &Octets,
    file: FileName,
) -> Result<Request, AllocError>
    ensures { IfOk result (λ q. q ≡ spec.asks_beside file name.now from.now fids.now.names) }
{
    match fids.get(from.as_slice()) {
        None => Ok(Request::Unbound {
            name: from.clone()?,
        }),
        Some(fid) => {
            if fids.is_bound(name.as_slice()) {
                return Ok(Request::Unbound {
                    name: name.clone()?,
                });
            }
            open_beside(alloc, name, fid, file)
        }
    }
}

/// Opens another file of an open file's conversation, to read and to write.
pub fn open_beside(
    alloc: Global,
    name: &Octets,
    fid: Fid,
    file: FileName,
) -> Result<Request, AllocError>
    ensures { IfOk result (λ q. q ≡ spec.opens_both_ways name.now (bound_file fid) file) }
{
    open_file(alloc, name, fid, file, Mode::Both)
}

/// Opens a file beside this one in a mode.
pub fn open_file(
    alloc: Global,
    name: &Octets,
    fid: Fid,
    file: FileName,
    mode: Mode,
) -> Result<Request, AllocError>
    ensures { IfOk result (λ q. q ≡ spec.opens_so name.now (bound_file fid) file mode) }
{
    Ok(Request::Open {
        name: name.clone()?,
        path: path_of(alloc, fid.proto, fid.slot, file)?,
        mode,
    })
}

// The path of a file of a conversation.
fn path_of(alloc: Global, proto: Proto, slot: u32, file: FileName) -> Result<Octets, AllocError>
    ensures { IfOk result (λ path. path ≡ paths.path_of (node.File proto slot file)) }
{
    let mut path = Octets::from_slice(alloc, b"/net/")?;
    path.append(proto_name(proto))?;
    path.append(b"/")?;
    put_decimal(&mut path, slot as u64)?;
    path.append(b"/")?;
    path.append(file_name(file))?;
    Ok(path)
}
