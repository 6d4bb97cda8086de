//! What the reply to a request does to the names.
ghost use Rattle.std.specs.Prelude.{◌≡◌, ◌⊎◌, Some, IsOk, OnOk, OnErr, option_map, true};
ghost use Rattle.net_base.specs.Steps as steps;
ghost use Rattle.net_tree.specs.Bindings.{bound_file};
ghost use Rattle.script_task.specs.Effects as spec;

use crate::names::Names;
use net_base::{FileName, Heard, Mode, Node, Octets, Proto, Reply};
use net_tree::Fid;
use std::alloc::AllocError;

/// What the reply to a request does to the names that are bound.
#[derive(Debug, Drop)]
pub enum Effect {
    /// The name is bound to what the reply opens.
    Opens {
        name: Octets,
        node: Node,
        mode: Mode,
    },
    /// The name is unbound, whatever the reply.
    Closes {
        name: Octets,
    },
    /// An `hread` was told this, whatever the reply.
    Hears {
        heard: Heard,
    },
    /// No name changes.
    Keeps,
}

impl Effect {
    /// The file that the reply opens.
    pub fn opened(&self, reply: &Reply) -> Option<Fid>
        ensures { option_map bound_file result ≡ spec.opened_file self.now reply.now }
    {
        match self {
            Effect::Opens { node, mode, .. } => opened_fid(*node, *mode, reply),
            _ => None,
        }
    }

    /// Changes the names, where this was opened. Without memory they are as before.
    pub fn settle(self, fids: &mut Names, opened: Option<Fid>) -> Result<(), AllocError>
        ensures ok { OnOk result (fids.new ≡ spec.settles_effect self (option_map bound_file opened) fids.old) }
        ensures err { OnErr result (fids.new ≡ fids.old) }
        ensures room { spec.EffectHasRoom self fids.old → IsOk result }
    {
        match self {
            Effect::Opens { name, .. } => match opened {
                Some(fid) => bind_free(fids, name.as_slice(), fid),
                None => Ok(()),
            },
            Effect::Closes { name } => {
                fids.unbind(name.as_slice());
                Ok(())
            }
            Effect::Hears { heard } => {
                fids.hear(heard);
                Ok(())
            }
            Effect::Keeps => Ok(()),
        }
    }
}

/// Binds a name to a file, where the name is free.
pub(crate) fn bind_free(fids: &mut Names, name: &[u8], fid: Fid) -> Result<(), AllocError>
    ensures ok { OnOk result (fids.new ≡ spec.binds_name name.now (bound_file fid) fids.old) }
    ensures err { OnErr result (fids.new ≡ fids.old) }
    ensures room { (fids.old.reserved ≡ Some name.now) ⊎ (steps.is_bound fids.old.names name.now ≡ true)
        → IsOk result }
{
    if fids.is_bound(name) {
        return Ok(());
    }
    if fids.bind(name, fid).is_err() {
        return Err(AllocError);
    }
    Ok(())
}

/// The file that a reply opens, where a node is opened so.
pub(crate) fn opened_fid(node: Node, mode: Mode, reply: &Reply) -> Option<Fid>
    ensures { option_map bound_file result ≡ steps.opened_fid mode (Some node) reply.now }
{
    match node {
        Node::Clone(proto) => cloned(proto, mode, reply),
        Node::File(proto, slot, file) => file_opened(proto, slot, file, mode, reply),
        _ => None,
    }
}

fn cloned(proto: Proto, mode: Mode, reply: &Reply) -> Option<Fid>
    ensures { option_map bound_file result ≡ spec.cloned proto mode reply.now }
{
    match reply {
        Reply::Slot { slot, generation } => Some(Fid {
            proto,
            slot: *slot,
            generation: *generation,
            file: FileName::Ctl,
            mode,
        }),
        _ => None,
    }
}

fn file_opened(proto: Proto, slot: u32, file: FileName, mode: Mode, reply: &Reply) -> Option<Fid>
    ensures { option_map bound_file result ≡ spec.file_opened proto slot file mode reply.now }
{
    match reply {
        Reply::Call { slot, generation } => Some(Fid {
            proto,
            slot: *slot,
            generation: *generation,
            file: FileName::Ctl,
            mode,
        }),
        Reply::Opened { generation } => Some(Fid {
            proto,
            slot,
            generation: *generation,
            file,
            mode,
        }),
        _ => None,
    }
}
