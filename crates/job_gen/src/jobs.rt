//! The lines of a generated job.
ghost use Rattle.std.specs.Prelude.{◌≡◌, ◌≤◌, ◌<◌, ◌∷◌, [], length, OnOk, IfOk, false};
ghost use Rattle.job_text.specs.Jobs.{JobIs};
ghost use Rattle.job_gen.specs.Grows.{Grows};
ghost use Rattle.job_gen.specs.Generated as generated;
ghost use Rattle.job_gen.specs.Jobs.{generated_job};

use crate::growing::Growing;
use std::alloc::{AllocError as NoMemory, Global};

impl Growing {
    /// Appends a procedure that calls none.
    fn first_procedure(&mut self, alloc: Global) -> Result<(), NoMemory>
        ensures { OnOk result (Grows self.old self.new (generated.first_procedure ∷ [])) }
    {
        let a = self.draw();
        let c = self.draw();
        let line = format!(in alloc;
            "LOGICAL PROCEDURE P0(V); VALUE V; LOGICAL V; BEGIN P0:=V*{a}+{c}; END;\n"
        )?;
        self.push(line.as_bytes())?;
        Ok(())
    }

    /// Appends one that calls the one before it.
    fn later_procedure(&mut self, alloc: Global, k: u8) -> Result<(), NoMemory>
        requires { 0 < k }
        ensures { OnOk result (Grows self.old self.new (generated.later_procedure k ∷ [])) }
    {
        let below = k - 1;
        let front = format!(in alloc;
            "LOGICAL PROCEDURE P{k}(V); VALUE V; LOGICAL V; BEGIN P{k}:=P{below}"
        )?;
        self.push(front.as_bytes())?;
        let a = self.draw();
        let b = self.draw();
        let c = self.draw();
        let rest = format!(in alloc; "(V+{a})*{b}+{c}; END;\n")?;
        self.push(rest.as_bytes())?;
        Ok(())
    }

    /// Appends procedure `k`.
    fn procedure(&mut self, alloc: Global, k: u8) -> Result<(), NoMemory>
        ensures { OnOk result (Grows self.old self.new (generated.procedure k ∷ [])) }
    {
        if k == 0 {
            self.first_procedure(alloc)
        } else {
            self.later_procedure(alloc, k)
        }
    }

    /// Appends the line of a segment of procedures.
    fn segment(&mut self, alloc: Global, s: u8) -> Result<(), NoMemory>
        ensures { OnOk result (Grows self.old self.new (generated.segment s ∷ [])) }
    {
        let line = format!(in alloc; "$CONTROL SEGMENT=S{s}\n")?;
        self.push(line.as_bytes())?;
        Ok(())
    }

    /// Appends procedure `k`, and before it the line of a segment that begins there.
    fn procedure_lines(&mut self, alloc: Global, k: u8) -> Result<(), NoMemory>
        ensures { OnOk result (Grows self.old self.new (generated.procedure_lines k)) }
    {
        if k % 10 == 0 {
            self.segment(alloc, k / 10)?;
        }
        self.procedure(alloc, k)?;
        Ok(())
    }

    /// Appends the procedures below `n`.
    fn procedures(&mut self, alloc: Global, n: u8) -> Result<(), NoMemory>
        ensures { OnOk result (Grows self.old self.new (generated.procedures n)) }
    {
        for k in 0..n {
            self.procedure_lines(alloc, k)?;
        }
        Ok(())
    }

    /// Appends what a unit declares before its procedures.
    fn declarations(&mut self) -> Result<(), NoMemory>
        ensures { OnOk result (Grows self.old self.new generated.declarations) }
    {
        self.push(b"BEGIN LOGICAL S; LOGICAL ARRAY W(0:9); BYTE ARRAY B(*)=W; INTEGER I,N;\n")?;
        self.push(b"INTRINSIC PRINT,ASCII,TERMINATE;\n")?;
        Ok(())
    }

    /// Appends the line that calls the last procedure.
    fn calls(&mut self, alloc: Global) -> Result<(), NoMemory>
        ensures { OnOk result (Grows self.old self.new (generated.calls ∷ [])) }
    {
        let s = self.draw();
        let line = format!(in alloc; "S:={s}; FOR I:=1 UNTIL 20 DO S:=P79(S);\n")?;
        self.push(line.as_bytes())?;
        Ok(())
    }

    /// Appends a unit's main body.
    fn main_body(&mut self, alloc: Global) -> Result<(), NoMemory>
        ensures { OnOk result (Grows self.old self.new generated.main_body) }
    {
        self.push(b"$CONTROL SEGMENT=MAIN\n")?;
        self.calls(alloc)?;
        self.push(b"N:=ASCII(S,10,B); PRINT(W,-N,0); TERMINATE END.\n")?;
        Ok(())
    }

    /// Appends a unit.
    fn unit(&mut self, alloc: Global) -> Result<(), NoMemory>
        ensures { OnOk result (Grows self.old self.new generated.unit_lines) }
    {
        self.declarations()?;
        self.procedures(alloc, 80)?;
        self.main_body(alloc)?;
        Ok(())
    }

    /// Appends program `j`.
    fn program(&mut self, alloc: Global, j: u8) -> Result<(), NoMemory>
        ensures { OnOk result (Grows self.old self.new (generated.program j)) }
    {
        let line = format!(in alloc; "!PROGRAM G{j}\n!UNIT\n")?;
        self.push(line.as_bytes())?;
        self.unit(alloc)?;
        Ok(())
    }

    /// Appends the programs 1 to `n`.
    fn programs(&mut self, alloc: Global, n: u8) -> Result<(), NoMemory>
        requires { n < 255 }
        ensures { OnOk result (Grows self.old self.new (generated.programs n)) }
    {
        for j in 0..n {
            self.program(alloc, j + 1)?;
        }
        Ok(())
    }

    /// Appends two sessions of program `j`.
    fn session_pair(&mut self, alloc: Global, j: u8) -> Result<(), NoMemory>
        ensures { OnOk result (Grows self.old self.new (generated.session j ∷ generated.session j ∷ [])) }
    {
        let line = format!(in alloc; "!SESSION G{j}\n")?;
        self.push(line.as_bytes())?;
        self.push(line.as_bytes())?;
        Ok(())
    }

    /// Appends two sessions of each of the programs 1 to `n`.
    fn sessions(&mut self, alloc: Global, n: u8) -> Result<(), NoMemory>
        requires { n < 255 }
        ensures { OnOk result (Grows self.old self.new (generated.sessions n)) }
    {
        for j in 0..n {
            self.session_pair(alloc, j + 1)?;
        }
        Ok(())
    }

    /// Appends the whole job.
    fn job(&mut self, alloc: Global) -> Result<(), NoMemory>
        ensures { OnOk result (Grows self.old self.new generated.job_lines) }
    {
        self.push(b"!JOB\n!MEMORY 24576\n!QUANTUM 50\n!TURNS 1000000\n")?;
        self.programs(alloc, 8)?;
        self.sessions(alloc, 8)?;
        self.push(b"!EOJ\n")?;
        Ok(())
    }
}

/// The generated job with number `n`: its text, of at most 1,048,576 bytes, which is a job to be run. Only memory may be
/// wanting.
pub fn generate(alloc: Global, n: u16) -> Result<Vec<u8>, NoMemory>
    ensures text { IfOk result (λ text. text.items ≡ generated.generated n) }
    ensures short { IfOk result (λ text. length text.items ≤ 1048576) }
    ensures job { IfOk result (λ text. JobIs text.items false (generated_job n)) }
{
    let mut growing = Growing {
        text: Vec::new(alloc),
        last: n,
    };
    growing.job(alloc)?;
    Ok(growing.text)
}
