ghost use Rattle.std.specs.Prelude.{Some};
ghost use Rattle.ir.specs.Writing.{spaced, of_arg, of_data, of_layer, of_packed, of_refusal};

use crate::block_arg::BlockArg;
use crate::fault::{Fault, Layer, Refused};
use crate::value_data::{ValueData, ValueDataPacked};
use std::fmt;

impl fmt::Display for ValueData {
    ghost output = { λ d. Some (spaced (of_data d)) };

    fn fmt<W: fmt::Write>(&self, f: &mut fmt::Formatter<W>) -> fmt::Result {
        match *self {
            ValueData::Inst { ty, num, inst } => write!(f, "result {} {num} {}", ty.0, inst.0),
            ValueData::Param { ty, num, block } => write!(f, "param {} {num} {}", ty.0, block.0),
            ValueData::Alias { ty, original } => write!(f, "alias {} {}", ty.0, original.0),
            ValueData::Union { ty, x, y } => write!(f, "union {} {} {}", ty.0, x.0, y.0),
        }
    }
}

impl fmt::Display for ValueDataPacked {
    ghost output = { λ p. Some (spaced (of_packed p)) };

    fn fmt<W: fmt::Write>(&self, f: &mut fmt::Formatter<W>) -> fmt::Result {
        write!(f, "{} {} {}", self.x, self.y, self.flags)
    }
}

impl fmt::Display for BlockArg {
    ghost output = { λ a. Some (spaced (of_arg a)) };

    fn fmt<W: fmt::Write>(&self, f: &mut fmt::Formatter<W>) -> fmt::Result {
        match *self {
            BlockArg::Value(v) => write!(f, "value {}", v.0),
            BlockArg::TryCallRet(n) => write!(f, "ret {n}"),
            BlockArg::TryCallExn(n) => write!(f, "exn {n}"),
        }
    }
}

impl fmt::Display for Layer {
    ghost output = { λ l. Some (of_layer l) };

    fn fmt<W: fmt::Write>(&self, f: &mut fmt::Formatter<W>) -> fmt::Result {
        f.write_str(match self {
            Layer::Packing => "packing",
            Layer::Pool => "pool",
            Layer::Table => "table",
            Layer::Graph => "graph",
        })
    }
}

impl<F: Fault> fmt::Display for Refused<F> {
    ghost output = { λ r. Some (spaced (of_refusal (F.told r.0))) };

    fn fmt<W: fmt::Write>(&self, f: &mut fmt::Formatter<W>) -> fmt::Result {
        let fault = self.0;
        write!(
            f,
            "refused {} {} {} {}",
            fault.number(),
            fault.word(),
            fault.layer(),
            fault.detail()
        )
    }
}
