//! The terminals of gates and the connections of instances.

ghost use Rattle.std.specs.Prelude.{◌≡◌};
ghost use Rattle.eq_vparse.specs.Limits.{limits};
ghost use Rattle.eq_vparse.specs.Reading.{Reads, Fills};
ghost use Rattle.eq_vparse.specs.ConnectionReading.{term_at, terms_at, maybe_name_at, gate_at, maybe_expr_at, ordered_at, named_at, more_named_at, by_order_at, by_name_at, conns_at, instance_at};

use crate::cursor::Cursor;
use crate::stop::Stop;
use crate::tree::{Conns, Expr, Exprs, GateKind, Item, MaybeExprs, ModuleItems, Named, Nameds};
use eq_names::Name;
use eq_vlex::Mark;
use std::alloc::Global;

impl<'t> Cursor<'t> {
    #[tactic(auto, unfolding(crate::specs::ConnectionReading::term_at))]
    fn term(&mut self, alloc: Global, terms: &mut Exprs) -> Result<(), Stop>
        ensures { Fills result self.new terms.new (term_at limits terms.old self.old) }
    {
        let expr = self.expr(alloc)?;
        terms.push(expr)?;
        Ok(())
    }

    /// The terminals of a gate.
    fn terms(&mut self, alloc: Global) -> Result<Exprs, Stop>
        ensures { Reads result self.new (terms_at limits self.old) }
    {
        let mut terms = Exprs::new(alloc);
        loop {
            self.term(alloc, &mut terms)?;
            if !self.takes(Mark::Comma) {
                return Ok(terms);
            }
        }
    }

    #[tactic(auto, unfolding(crate::specs::ConnectionReading::maybe_name_at))]
    fn maybe_name(&mut self, alloc: Global) -> Result<Option<Name>, Stop>
        ensures { Reads result self.new (maybe_name_at self.old) }
    {
        if !self.is_word() {
            return Ok(None);
        }
        let name = self.name(alloc)?;
        Ok(Some(name))
    }

    /// A gate's name, if it has one, and its terminals.
    #[tactic(auto, unfolding(crate::specs::ConnectionReading::gate_at))]
    pub fn gate(
        &mut self,
        alloc: Global,
        kind: GateKind,
        items: &mut ModuleItems,
    ) -> Result<(), Stop>
        ensures { Fills result self.new items.new (gate_at limits kind items.old self.old) }
    {
        let name = self.maybe_name(alloc)?;
        self.expect(Mark::LeftParen)?;
        let terms = self.terms(alloc)?;
        self.expect(Mark::RightParen)?;
        items.push(Item::Gate { kind, name, terms })?;
        Ok(())
    }

    /// The expression of a connection, or nothing.
    #[tactic(auto, unfolding(crate::specs::ConnectionReading::maybe_expr_at))]
    fn maybe_expr(&mut self, alloc: Global) -> Result<Option<Expr>, Stop>
        ensures { Reads result self.new (maybe_expr_at limits self.old) }
    {
        if self.is_mark(Mark::Comma) | self.is_mark(Mark::RightParen) {
            return Ok(None);
        }
        let expr = self.expr(alloc)?;
        Ok(Some(expr))
    }

    #[tactic(auto, unfolding(crate::specs::ConnectionReading::ordered_at))]
    fn ordered(&mut self, alloc: Global, conns: &mut MaybeExprs) -> Result<(), Stop>
        ensures { Fills result self.new conns.new (ordered_at limits conns.old self.old) }
    {
        let expr = self.maybe_expr(alloc)?;
        conns.push(expr)?;
        Ok(())
    }

    /// `.port(expression)` or `.port()`
    #[tactic(auto, unfolding(crate::specs::ConnectionReading::named_at))]
    fn named(&mut self, alloc: Global) -> Result<Named, Stop>
        ensures { Reads result self.new (named_at limits self.old) }
    {
        self.expect(Mark::Dot)?;
        let port = self.name(alloc)?;
        self.expect(Mark::LeftParen)?;
        let expr = self.maybe_expr(alloc)?;
        self.expect(Mark::RightParen)?;
        Ok(Named { port, expr })
    }

    #[tactic(auto, unfolding(crate::specs::ConnectionReading::more_named_at))]
    fn more_named(&mut self, alloc: Global, conns: &mut Nameds) -> Result<(), Stop>
        ensures { Fills result self.new conns.new (more_named_at limits conns.old self.old) }
    {
        let conn = self.named(alloc)?;
        conns.push(conn)?;
        Ok(())
    }

    fn by_order(&mut self, alloc: Global) -> Result<MaybeExprs, Stop>
        ensures { Reads result self.new (by_order_at limits self.old) }
    {
        let mut conns = MaybeExprs::new(alloc);
        loop {
            self.ordered(alloc, &mut conns)?;
            if !self.takes(Mark::Comma) {
                return Ok(conns);
            }
        }
    }

    fn by_name(&mut self, alloc: Global) -> Result<Nameds, Stop>
        ensures { Reads result self.new (by_name_at limits self.old) }
    {
        let mut conns = Nameds::new(alloc);
        loop {
            self.more_named(alloc, &mut conns)?;
            if !self.takes(Mark::Comma) {
                return Ok(conns);
            }
        }
    }

    #[tactic(auto, unfolding(crate::specs::ConnectionReading::conns_at, crate::specs::ConnectionReading::some_conns_at))]
    fn conns(&mut self, alloc: Global) -> Result<Conns, Stop>
        ensures { Reads result self.new (conns_at limits self.old) }
    {
        if self.is_mark(Mark::RightParen) {
            return Ok(Conns::ByName(Nameds::new(alloc)));
        }
        if self.is_mark(Mark::Dot) {
            let conns = self.by_name(alloc)?;
            return Ok(Conns::ByName(conns));
        }
        let conns = self.by_order(alloc)?;
        Ok(Conns::ByOrder(conns))
    }

    /// An instance's name and its connections.
    #[tactic(auto, unfolding(crate::specs::ConnectionReading::instance_at))]
    pub fn instance(
        &mut self,
        alloc: Global,
        design: &Name,
        items: &mut ModuleItems,
    ) -> Result<(), Stop>
        ensures { Fills result self.new items.new (instance_at limits design.now items.old self.old) }
    {
        let name = self.name(alloc)?;
        self.expect(Mark::LeftParen)?;
        let conns = self.conns(alloc)?;
        self.expect(Mark::RightParen)?;
        let module = design.copy(alloc)?;
        items.push(Item::Instance {
            module,
            name,
            conns,
        })?;
        Ok(())
    }
}
