// The lines that the solve program prints, written byte by byte into a lent buffer.
#![tactic(auto)]

ghost use Rattle.std.specs.Prelude.{[], ◌∷◌, ◌+◌, ◌*◌, ◌≤◌, length};
ghost use Rattle.real.specs.declared.Value.TheVariants.{Whole, Real};
ghost use Rattle.lines.specs.Lines.{printed_decimal, printed_real, printed_value, printed_values, ok_line, four_reals, bus_line, bus_lines, branch_line, branch_lines, refused_line};
ghost use Rattle.lines.specs.Printer.{HasRoom, Printed, OnePerBus};

use flows::{Flow, Flows};
use outcome::AnswerColumns;
use real::Value;

// A lent buffer, and the place from which it is written on.
#[derive(Drop)]
pub struct Printer<'a> {
    pub out: &'a mut [u8],
    pub at: usize,
}

// What is printed of one bus: its kind, and its answer.
#[derive(Clone, Copy)]
pub struct BusFigure {
    pub kind: u8,
    pub vm: f64,
    pub va: f64,
    pub p: f64,
    pub q: f64,
}

impl Printer<'_> {
    fn put(&mut self, src: &[u8])
        requires { HasRoom self.old (length src.now) }
        ensures { Printed src.now (length src.now) self.old self.new }
    {
        let end = self.at + src.len();
        self.out[self.at..end].copy_from_slice(src);
        self.at = end;
    }

    fn put_byte(&mut self, b: u8)
        requires { HasRoom self.old 1 }
        ensures { Printed (b ∷ []) 1 self.old self.new }
    {
        self.out[self.at] = b;
        self.at += 1;
    }

    // A whole number in decimal: at most 20 digits.
    fn put_decimal(&mut self, n: usize)
        requires { HasRoom self.old 20 }
        ensures { Printed (printed_decimal n) 20 self.old self.new }
    {
        let mut text = [0u8; 20];
        let k = io::decimal(n as u64, &mut text);
        self.put(&text[..k]);
    }

    // A real: `nan`, or the 16 hexadecimal digits of its bits.
    fn put_real(&mut self, x: f64)
        requires { HasRoom self.old 16 }
        ensures { Printed (printed_real x) 16 self.old self.new }
    {
        if real::is_nan(x) {
            self.put(b"nan");
        } else {
            let mut text = [0u8; 16];
            let k = io::hex(f64::to_bits(x), 16, &mut text);
            self.put(&text[..k]);
        }
    }

    // A space and a real.
    fn put_gap(&mut self, x: f64)
        requires { HasRoom self.old 17 }
        ensures { Printed (printed_value (Real x)) 17 self.old self.new }
    {
        self.put_byte(b' ');
        self.put_real(x);
    }

    // A space and a whole number.
    fn put_count(&mut self, n: usize)
        requires { HasRoom self.old 21 }
        ensures { Printed (printed_value (Whole n)) 21 self.old self.new }
    {
        self.put_byte(b' ');
        self.put_decimal(n);
    }

    // A space and a value.
    fn put_value(&mut self, v: Value)
        requires { HasRoom self.old 21 }
        ensures { Printed (printed_value v) 21 self.old self.new }
    {
        match v {
            Value::Whole(n) => self.put_count(n),
            Value::Real(x) => self.put_gap(x),
        }
    }

    // The first line of a solved case.
    pub fn put_ok(&mut self, iterations: usize, residual: f64)
        requires { HasRoom self.old 41 }
        ensures { Printed (ok_line iterations residual) 41 self.old self.new }
    {
        self.put(b"ok");
        self.put_count(iterations);
        self.put_gap(residual);
        self.put_byte(b'\n');
    }

    // Four reals, each after a space.
    fn put_four(&mut self, a: f64, b: f64, c: f64, d: f64)
        requires { HasRoom self.old 68 }
        ensures { Printed (four_reals a b c d) 68 self.old self.new }
    {
        self.put_gap(a);
        self.put_gap(b);
        self.put_gap(c);
        self.put_gap(d);
    }

    // The line of a bus.
    fn put_bus(&mut self, number: usize, bus: BusFigure)
        requires { HasRoom self.old 91 }
        ensures { Printed (bus_line number bus.kind bus.vm bus.va bus.p bus.q) 91 self.old self.new }
    {
        self.put_decimal(number);
        self.put_byte(b' ');
        self.put_byte(bus.kind);
        self.put_four(bus.vm, bus.va, bus.p, bus.q);
        self.put_byte(b'\n');
    }

    // The lines of the first n buses.
    pub fn put_buses(&mut self, n: usize, buses: AnswerColumns)
        requires { OnePerBus n buses × HasRoom self.old (91 * n) }
        ensures { let b = buses.entry in
            Printed (bus_lines n b.vm.now b.va.now b.p.now b.q.now b.kinds.now) (91 * n) self.old self.new }
    {
        for b in 0..n {
            self.put_bus(
                b,
                BusFigure {
                    kind: buses.kinds[b],
                    vm: buses.vm[b],
                    va: buses.va[b],
                    p: buses.p[b],
                    q: buses.q[b],
                },
            );
        }
    }

    // The line of a branch.
    fn put_branch(&mut self, row: usize, f: Flow)
        requires { HasRoom self.old 106 }
        ensures { Printed (branch_line row f.pf f.qf f.pt f.qt f.loss) 106 self.old self.new }
    {
        self.put_decimal(row);
        self.put_four(f.pf, f.qf, f.pt, f.qt);
        self.put_gap(f.loss);
        self.put_byte(b'\n');
    }

    // The lines of the first n branches.
    pub fn put_branches(&mut self, n: usize, f: &Flows)
        requires { (n ≤ 64) × HasRoom self.old (106 * n) }
        ensures { Printed (branch_lines n f.now.pf f.now.qf f.now.pt f.now.qt f.now.loss) (106 * n) self.old self.new }
    {
        for e in 0..n {
            self.put_branch(
                e,
                Flow {
                    pf: f.pf[e],
                    qf: f.qf[e],
                    pt: f.pt[e],
                    qt: f.qt[e],
                    loss: f.loss[e],
                },
            );
        }
    }

    // Values, each after a space.
    fn put_values(&mut self, values: &[Value])
        requires { HasRoom self.old (21 * length values.now) }
        ensures { Printed (printed_values values.now) (21 * length values.now) self.old self.new }
    {
        for v in values {
            self.put_value(*v);
        }
    }

    // A refusal: its number and the values beside it.
    pub fn put_refused(&mut self, number: usize, values: &[Value])
        requires { HasRoom self.old (29 + 21 * length values.now) }
        ensures { Printed (refused_line number values.now) (29 + 21 * length values.now) self.old self.new }
    {
        self.put(b"refused");
        self.put_count(number);
        self.put_values(values);
        self.put_byte(b'\n');
    }
}
