//! The passes. Each is used up by a call and handed back by it; contracts see what it knows.
use crate::held::Held;
use crate::view::View;
use atomic_table::Seat;
use std::marker::Model;

/// A pass that is outside. It may enter, raise the stop bit, or close the gate.
#[derive(Drop)]
pub struct Out<C: Held> {
    pub(crate) seat: Seat<Option<C>, View<C::Origin>>,
}

impl<C: Held> Model for Out<C> {
    ghost use Rattle.stop_gate.specs.Passes.{Pass, pass_of, IsAt};
    ghost use Rattle.stop_gate.specs.declared.view.Place.TheVariants as places;

    ghost Value = { Pass C.Origin };

    ghost view = { λ p. pass_of p.seat };

    ghost invariant = { λ p. IsAt places.Out p.seat };
}

/// A pass that counts, found the stop bit as it entered, and has to go back.
#[derive(Drop)]
pub struct Backing<C: Held> {
    pub(crate) seat: Seat<Option<C>, View<C::Origin>>,
}

impl<C: Held> Model for Backing<C> {
    ghost use Rattle.stop_gate.specs.Passes.{Pass, pass_of, IsAt};
    ghost use Rattle.stop_gate.specs.declared.view.Place.TheVariants as places;

    ghost Value = { Pass C.Origin };

    ghost view = { λ p. pass_of p.seat };

    ghost invariant = { λ p. IsAt places.Backing p.seat };
}

/// A pass that is inside. It may take the value, or leave.
#[derive(Drop)]
pub struct Inside<C: Held> {
    pub(crate) seat: Seat<Option<C>, View<C::Origin>>,
}

impl<C: Held> Model for Inside<C> {
    ghost use Rattle.stop_gate.specs.Passes.{Pass, pass_of, IsAt};
    ghost use Rattle.stop_gate.specs.declared.view.Place.TheVariants as places;

    ghost Value = { Pass C.Origin };

    ghost view = { λ p. pass_of p.seat };

    ghost invariant = { λ p. IsAt places.Inside p.seat };
}

/// The one pass that has raised the stop bit. It looks until nobody is inside.
#[derive(Drop)]
pub struct Stopping<C: Held> {
    pub(crate) seat: Seat<Option<C>, View<C::Origin>>,
}

impl<C: Held> Model for Stopping<C> {
    ghost use Rattle.stop_gate.specs.Passes.{Pass, pass_of, IsAt};
    ghost use Rattle.stop_gate.specs.declared.view.Place.TheVariants as places;

    ghost Value = { Pass C.Origin };

    ghost view = { λ p. pass_of p.seat };

    ghost invariant = { λ p. IsAt places.Stopping p.seat };
}

/// The pass that has raised the stop bit, and has found nobody inside.
#[derive(Drop)]
pub struct Alone<C: Held> {
    pub(crate) seat: Seat<Option<C>, View<C::Origin>>,
}

impl<C: Held> Model for Alone<C> {
    ghost use Rattle.stop_gate.specs.Passes.{Pass, pass_of, IsAt};
    ghost use Rattle.stop_gate.specs.declared.view.Place.TheVariants as places;

    ghost Value = { Pass C.Origin };

    ghost view = { λ p. pass_of p.seat };

    ghost invariant = { λ p. IsAt places.Alone p.seat };
}

/// A pass that is inside, and whose holder has the value.
#[derive(Drop)]
pub struct Turning<C: Held> {
    pub(crate) seat: Seat<Option<C>, View<C::Origin>>,
}

impl<C: Held> Model for Turning<C> {
    ghost use Rattle.stop_gate.specs.Passes.{Pass, pass_of, HasTurn};
    ghost use Rattle.stop_gate.specs.declared.view.Place.TheVariants as places;

    ghost Value = { Pass C.Origin };

    ghost view = { λ p. pass_of p.seat };

    ghost invariant = { λ p. HasTurn places.Turning p.seat };
}

/// The pass that is alone, and whose holder has the value.
#[derive(Drop)]
pub struct AloneTurning<C: Held> {
    pub(crate) seat: Seat<Option<C>, View<C::Origin>>,
}

impl<C: Held> Model for AloneTurning<C> {
    ghost use Rattle.stop_gate.specs.Passes.{Pass, pass_of, HasTurn};
    ghost use Rattle.stop_gate.specs.declared.view.Place.TheVariants as places;

    ghost Value = { Pass C.Origin };

    ghost view = { λ p. pass_of p.seat };

    ghost invariant = { λ p. HasTurn places.AloneTurning p.seat };
}
