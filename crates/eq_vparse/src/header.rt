//! The header of a module.

ghost use Rattle.std.specs.Prelude.{◌≡◌, OnOk};
ghost use Rattle.eq_vparse.specs.Reading.{Reads, Fills};
ghost use Rattle.eq_vparse.specs.HeaderReading.{plain_port_at, reg_port_at, decl_at, next_port_at, put as put_lem, empty, more_ports_at, all_ports_at, decls_at, port_name_at, port_names_at, ports_at, header_at};

use crate::cursor::Cursor;
use crate::declaration::{declare, register};
use crate::stop::Stop;
use crate::tree::{DeclKind, ModuleItems, Names, Range};
use eq_base::Memory;
use eq_names::Name;
use eq_vlex::{Constant, Key, Mark};
use std::alloc::Global;

/// How a header declares a port.
#[derive(Clone, Copy, PartialEq, Eq)]
pub(crate) enum PortKind {
    Input,
    Output,
    /// `output reg`
    OutputReg,
}

/// A port that a header declares.
#[derive(Drop)]
pub(crate) struct Port {
    pub kind: PortKind,
    pub range: Option<Range>,
    pub name: Name,
    pub value: Option<Constant>,
}

/// What a header gives: the names of its ports, and items.
#[derive(Drop)]
pub(crate) struct Header {
    pub ports: Names,
    pub items: ModuleItems,
}

/// What the ports so far give, and the last of them.
#[derive(Drop)]
pub(crate) struct Ports {
    pub header: Header,
    pub last: Port,
}

impl Header {
    fn new(alloc: Global) -> Header
        ensures { result ≡ empty }
    {
        Header {
            ports: Names::new(alloc),
            items: ModuleItems::new(alloc),
        }
    }

    /// Puts a port behind the others.
    #[tactic(auto, unfolding(crate::specs::HeaderReading::put))]
    fn put(&mut self, alloc: Global, port: &Port) -> Result<(), Memory>
        ensures { OnOk result (self.new ≡ put_lem self.old port.now) }
    {
        let Port {
            kind,
            range,
            name,
            value,
        } = port;
        self.ports.push(name.copy(alloc)?)?;
        match kind {
            PortKind::Input => declare(alloc, &mut self.items, DeclKind::Input, *range, name),
            PortKind::Output => declare(alloc, &mut self.items, DeclKind::Output, *range, name),
            PortKind::OutputReg => {
                declare(alloc, &mut self.items, DeclKind::Output, *range, name)?;
                register(alloc, &mut self.items, *range, name, *value)
            }
        }
    }
}

impl<'t> Cursor<'t> {
    /// A port that is no register, behind its first key.
    #[tactic(auto, unfolding(crate::specs::HeaderReading::plain_port_at))]
    fn plain_port(&mut self, alloc: Global, kind: PortKind) -> Result<Port, Stop>
        ensures { Reads result self.new (plain_port_at kind self.old) }
    {
        self.takes_key(Key::Wire);
        let range = self.maybe_range()?;
        let name = self.name(alloc)?;
        Ok(Port {
            kind,
            range,
            name,
            value: None,
        })
    }

    /// A port behind `output reg`.
    #[tactic(auto, unfolding(crate::specs::HeaderReading::reg_port_at))]
    fn reg_port(&mut self, alloc: Global) -> Result<Port, Stop>
        ensures { Reads result self.new (reg_port_at self.old) }
    {
        let range = self.maybe_range()?;
        let name = self.name(alloc)?;
        let value = self.maybe_value()?;
        Ok(Port {
            kind: PortKind::OutputReg,
            range,
            name,
            value,
        })
    }

    #[tactic(auto, unfolding(crate::specs::HeaderReading::decl_at, crate::specs::HeaderReading::decl_if, crate::specs::HeaderReading::output_if))]
    fn decl(&mut self, alloc: Global) -> Result<Port, Stop>
        ensures { Reads result self.new (decl_at self.old) }
    {
        if self.takes_key(Key::Input) {
            return self.plain_port(alloc, PortKind::Input);
        }
        self.expect_key(Key::Output)?;
        if self.takes_key(Key::Reg) {
            return self.reg_port(alloc);
        }
        self.plain_port(alloc, PortKind::Output)
    }

    /// A whole declaration, or a bare name, which takes the kind and the range of the port before it.
    #[tactic(auto, unfolding(crate::specs::HeaderReading::next_port_at))]
    fn next_port(&mut self, alloc: Global, last: &Port) -> Result<Port, Stop>
        ensures { Reads result self.new (next_port_at last.now self.old) }
    {
        if !self.is_word() {
            return self.decl(alloc);
        }
        let name = self.name(alloc)?;
        Ok(Port {
            kind: last.kind,
            range: last.range,
            name,
            value: None,
        })
    }

    #[tactic(auto, unfolding(crate::specs::HeaderReading::more_ports_at))]
    fn more_ports(&mut self, alloc: Global, ports: &mut Ports) -> Result<(), Stop>
        ensures { Fills result self.new ports.new (more_ports_at ports.old self.old) }
    {
        self.expect(Mark::Comma)?;
        let port = self.next_port(alloc, &ports.last)?;
        ports.header.put(alloc, &port)?;
        ports.last = port;
        Ok(())
    }

    fn all_ports(&mut self, alloc: Global, mut ports: Ports) -> Result<Ports, Stop>
        ensures { Reads result self.new (all_ports_at ports self.old) }
    {
        while self.is_mark(Mark::Comma) {
            self.more_ports(alloc, &mut ports)?;
        }
        Ok(ports)
    }

    /// The ports of a header that declares them.
    #[tactic(auto, unfolding(crate::specs::HeaderReading::decls_at))]
    fn decls(&mut self, alloc: Global) -> Result<Header, Stop>
        ensures { Reads result self.new (decls_at self.old) }
    {
        let last = self.decl(alloc)?;
        let mut header = Header::new(alloc);
        header.put(alloc, &last)?;
        let ports = self.all_ports(alloc, Ports { header, last })?;
        Ok(ports.header)
    }

    #[tactic(auto, unfolding(crate::specs::HeaderReading::port_name_at))]
    fn port_name(&mut self, alloc: Global, names: &mut Names) -> Result<(), Stop>
        ensures { Fills result self.new names.new (port_name_at names.old self.old) }
    {
        let name = self.name(alloc)?;
        names.push(name)?;
        Ok(())
    }

    /// The ports of a header that only names them.
    fn port_names(&mut self, alloc: Global) -> Result<Names, Stop>
        ensures { Reads result self.new (port_names_at self.old) }
    {
        let mut names = Names::new(alloc);
        loop {
            self.port_name(alloc, &mut names)?;
            if !self.takes(Mark::Comma) {
                return Ok(names);
            }
        }
    }

    #[tactic(auto, unfolding(crate::specs::HeaderReading::ports_at, crate::specs::HeaderReading::some_ports_at))]
    fn ports(&mut self, alloc: Global) -> Result<Header, Stop>
        ensures { Reads result self.new (ports_at self.old) }
    {
        if self.is_mark(Mark::RightParen) {
            return Ok(Header::new(alloc));
        }
        if self.is_word() {
            let ports = self.port_names(alloc)?;
            return Ok(Header {
                ports,
                items: ModuleItems::new(alloc),
            });
        }
        self.decls(alloc)
    }

    /// The header of a module, if it has one.
    #[tactic(auto, unfolding(crate::specs::HeaderReading::header_at, crate::specs::HeaderReading::header_if))]
    pub fn header(&mut self, alloc: Global) -> Result<Header, Stop>
        ensures { Reads result self.new (header_at self.old) }
    {
        if !self.takes(Mark::LeftParen) {
            return Ok(Header::new(alloc));
        }
        let header = self.ports(alloc)?;
        self.expect(Mark::RightParen)?;
        Ok(header)
    }
}
