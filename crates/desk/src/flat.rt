// The answers laid flat, where the refusal or one number is all that they have.
ghost use Rattle.std.specs.Prelude.{◌≡◌};
ghost use Rattle.desk.specs.Laid.{laid_shape, laid_amount, laid_margin, laid_window, laid_written, laid_listed};

use crate::answers::{Amount, Listed, Margin, NONE, Shape, Window, Written};
use table::fault::Refusal;

impl From<Result<table::reader::Shape, Refusal>> for Shape {
    ghost from_gives = { λ said flat. flat ≡ laid_shape said };

    fn from(said: Result<table::reader::Shape, Refusal>) -> Shape {
        match said {
            Ok(shape) => Shape {
                refusal: NONE,
                tasks: shape.tasks,
                records: shape.records,
            },
            Err(refusal) => Shape {
                refusal,
                tasks: 0,
                records: 0,
            },
        }
    }
}

impl From<Result<u64, Refusal>> for Amount {
    ghost from_gives = { λ said flat. flat ≡ laid_amount said };

    fn from(said: Result<u64, Refusal>) -> Amount {
        match said {
            Ok(amount) => Amount {
                refusal: NONE,
                amount,
            },
            Err(refusal) => Amount { refusal, amount: 0 },
        }
    }
}

impl From<Result<i64, Refusal>> for Margin {
    ghost from_gives = { λ said flat. flat ≡ laid_margin said };

    fn from(said: Result<i64, Refusal>) -> Margin {
        match said {
            Ok(margin) => Margin {
                refusal: NONE,
                margin,
            },
            Err(refusal) => Margin { refusal, margin: 0 },
        }
    }
}

impl From<Result<Option<u64>, Refusal>> for Window {
    ghost from_gives = { λ said flat. flat ≡ laid_window said };

    fn from(said: Result<Option<u64>, Refusal>) -> Window {
        match said {
            Ok(Some(window)) => Window {
                refusal: NONE,
                closes: true,
                window,
            },
            Ok(None) => Window {
                refusal: NONE,
                closes: false,
                window: 0,
            },
            Err(refusal) => Window {
                refusal,
                closes: false,
                window: 0,
            },
        }
    }
}

impl From<Result<usize, Refusal>> for Written {
    ghost from_gives = { λ said flat. flat ≡ laid_written said };

    fn from(said: Result<usize, Refusal>) -> Written {
        match said {
            Ok(bytes) => Written {
                refusal: NONE,
                bytes,
            },
            Err(refusal) => Written { refusal, bytes: 0 },
        }
    }
}

impl From<Result<usize, Refusal>> for Listed {
    ghost from_gives = { λ said flat. flat ≡ laid_listed said };

    fn from(said: Result<usize, Refusal>) -> Listed {
        match said {
            Ok(records) => Listed {
                refusal: NONE,
                records,
            },
            Err(refusal) => Listed {
                refusal,
                records: 0,
            },
        }
    }
}
