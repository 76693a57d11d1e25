//! A listener that notes where it was to listen.

ghost use Rattle.std.specs.Prelude.{◌≡◌, ◌≢◌, Err};
ghost use Rattle.dsy_base.specs.declared.fault.IoFault.{IoFault};

use dsy_base::fault::IoFault;
use dsy_base::listen::Listen;
use link_forms::mem_listen::MemListen;
use link_forms::open_link::OpenLink;
use std::alloc::Global;

/// A listener in memory that notes each place where it was to listen.
#[derive(Drop)]
pub struct Noting {
    pub alloc: Global,
    pub inner: MemListen,
    pub places: Vec<String>,
}

impl Noting {
    // Notes a place.
    fn note(&mut self, host: &str, port: u16) -> Result<(), IoFault>
        ensures kept { self.new.inner ≡ self.old.inner }
        ensures only { result ≢ Err IoFault.Failed }
    {
        let Ok(place) = format!(in self.alloc; "{host}:{port}") else {
            return Err(IoFault::Memory);
        };
        match self.places.push(place) {
            Ok(()) => Ok(()),
            Err(_) => Err(IoFault::Memory),
        }
    }
}

impl Listen for Noting {
    ghost use Rattle.std.specs.Prelude.{true, refl};
    ghost use Rattle.link_forms.specs.MemLinks.{listen_state};

    type Link = OpenLink;

    ghost state = { λ l. listen_state l.inner };

    ghost tells = { true };

    fn bind(&mut self, host: &str, port: u16) -> Result<(), IoFault> {
        self.note(host, port)?;
        self.inner.bind(host, port)
    }

    fn accept(&mut self) -> Result<Option<OpenLink>, IoFault> {
        self.inner.accept()
    }

    fn end(&mut self, link: OpenLink) {
        self.inner.end(link)
    }

    ghost told = { λ _. (refl, refl) };

    ghost alike = { λ h. h };
}
