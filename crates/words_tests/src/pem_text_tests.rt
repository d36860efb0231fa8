use pem_text::put_pem;
use std::test::*;

#[test]
fn texts_have_lines_of_64(rt: HostRuntime) -> Result<(), Fail> {
    let alloc = rt.alloc();
    // So many bytes, of which the one at i is 7 i + 3 below 256, and their text (Python's base64 and textwrap).
    let table: [(usize, &[u8]); 7] = [
        (0, b"-----BEGIN X-----\n-----END X-----\n"),
        (1, b"-----BEGIN X-----\nAw==\n-----END X-----\n"),
        (
            47,
            b"-----BEGIN X-----\nAwoRGB8mLTQ7QklQV15lbHN6gYiPlp2kq7K5wMfO1dzj6vH4/wYNFBsiKTA3PkU=\n-----END X-----\n",
        ),
        (
            48,
            b"-----BEGIN X-----\nAwoRGB8mLTQ7QklQV15lbHN6gYiPlp2kq7K5wMfO1dzj6vH4/wYNFBsiKTA3PkVM\n-----END X-----\n",
        ),
        (
            49,
            b"-----BEGIN X-----\nAwoRGB8mLTQ7QklQV15lbHN6gYiPlp2kq7K5wMfO1dzj6vH4/wYNFBsiKTA3PkVM\nUw==\n-----END X-----\n",
        ),
        (
            96,
            b"-----BEGIN X-----\nAwoRGB8mLTQ7QklQV15lbHN6gYiPlp2kq7K5wMfO1dzj6vH4/wYNFBsiKTA3PkVM\nU1phaG92fYSLkpmgp661vMPK0djf5u30+wIJEBceJSwzOkFIT1ZdZGtyeYCHjpWc\n-----END X-----\n",
        ),
        (
            97,
            b"-----BEGIN X-----\nAwoRGB8mLTQ7QklQV15lbHN6gYiPlp2kq7K5wMfO1dzj6vH4/wYNFBsiKTA3PkVM\nU1phaG92fYSLkpmgp661vMPK0djf5u30+wIJEBceJSwzOkFIT1ZdZGtyeYCHjpWc\now==\n-----END X-----\n",
        ),
    ];
    for (len, text) in table {
        let mut der = Vec::new(alloc);
        for at in 0..len {
            der.push(((at * 7 + 3) % 256) as u8)?;
        }
        let mut out = Vec::new(alloc);
        put_pem(alloc, &mut out, b"X", der.as_slice())?;
        assert_eq!(rt; out.as_slice(), text, "of {len}");
    }
    Ok(())
}
