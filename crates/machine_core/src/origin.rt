use std::marker::Brand;

/// Where a run began, which no code holds: the plain state, what the devices told, and by whom it
/// is driven.
pub trait Origin {
    ghost use Rattle.guest_words.specs.State.{State};
    ghost use Rattle.edge_ports.specs.Seen.{Seen};
    ghost use Rattle.machine_core.specs.declared.limits.Mode.{Mode};

    ghost state: { State };

    ghost devices: { Seen };

    ghost mode: { Mode };
}

impl Origin for Brand {
    ghost use Rattle.std.specs.Prelude.{[], None};
    ghost use Rattle.std.specs.FinMap as map;
    ghost use Rattle.edge_ports.specs.End.{untold};
    ghost use Rattle.machine_core.specs.declared.limits.Mode.TheVariants.{Lone};

    ghost state = { record {
      memory = map.empty;
      low = 0;
      brk = 0;
      slots = [];
      waiting = [];
      next_tid = 0;
      records = [];
      steps = 0;
      ending = None;
      points = [];
      ports = 0;
      budget = 0;
    } };

    ghost devices = { record {
      input = untold 0 0;
      out = untold 0 0;
      err = untold 0 0;
      ports = [];
      closed = [];
      shut = [];
    } };

    ghost mode = { Lone };
}
